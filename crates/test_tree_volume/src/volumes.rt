//! A volume from an image on: commits, openings, and what is refused.

use super::steps::{Row, opened, run};
use crate::filling::{MOST, NEW, OLD};
use board::{Board, BoardFailed};
use boards::MemBoard;
use epoch::{Header, OpenAnswer, TreeEntry, flip, lay};
use std::alloc::Global;
use std::process::Abort;
use std::test::Fail;
use tee_base::{Bytes, NoMemory};

/// The key of each board.
pub const KEY: [u8; 32] = [7; 32];

/// How many blocks it has.
pub const BLOCKS: u64 = 43_720;

/// A blank board.
const FIRST: &[Row] = &[
    Row::Sequence(1),
    Row::Replace(MOST, OLD, Ok(2)),
    Row::Filled(OLD),
];

/// An image of sequence 2, whose leaves are filled with the old byte.
pub fn image_of_two(rt: &impl Abort, alloc: Global) -> Result<Bytes, Fail> {
    let board = run(rt, alloc, MemBoard::blank(alloc, KEY, BLOCKS)?, FIRST)?;
    let image = board.image(alloc);
    drop(board);
    Ok(image?)
}

/// A board with this image, whose calls with the numbers in `failing` fail.
fn board_of(
    rt: &impl Abort,
    alloc: Global,
    image: &Bytes,
    counter: u64,
    failing: &[u64],
) -> Result<MemBoard, NoMemory> {
    let image = image.copy(alloc)?;
    assert!(rt; image.as_slice().len() % 1024 == 0);
    let mut board = MemBoard::of_image(alloc, image, counter, KEY)?;
    board.failing(failing)?;
    Ok(board)
}

/// Makes the calls in order on the volume of such a board, and answers the board's counter behind them, if it is told.
pub fn run_over(
    rt: &impl Abort,
    alloc: Global,
    image: &Bytes,
    counter: u64,
    failing: &[u64],
    rows: &[Row],
) -> Result<Option<u64>, Fail> {
    let board = board_of(rt, alloc, image, counter, failing)?;
    let mut board = run(rt, alloc, board, rows)?;
    let counter = board.counter();
    drop(board);
    Ok(counter.ok())
}

/// Two commits behind sequence 2, and an opening again.
const TWICE: &[Row] = &[
    Row::Sequence(2),
    Row::Filled(OLD),
    Row::Replace(MOST, NEW, Ok(3)),
    Row::Replace(MOST, 0x33, Ok(4)),
    Row::Reopen(4),
    Row::Filled(0x33),
];

#[test]
fn a_commit_is_found_at_the_next_opening(rt: HostRuntime) -> Result<(), Fail> {
    let image = image_of_two(&rt, rt.alloc())?;
    for counter in [1, 2] {
        assert!(rt; run_over(&rt, rt.alloc(), &image, counter, &[], TWICE)? == Some(4));
    }
    Ok(())
}

/// A header of sequence 0, whose root stands for zeros.
const OF_ZERO: Header = Header {
    version: 2,
    sequence: 0,
    root: TreeEntry {
        copy: 1,
        sequence: 0,
        iv: [0; 16],
        tag: [0; 32],
    },
};

/// Gives the board a header of sequence 0.
fn begin_at_zero<B: Board>(rt: &impl Abort, board: &mut B) -> Result<(), BoardFailed> {
    assert!(rt; board.blocks() >= 4);
    lay(board, &OF_ZERO)?;
    flip(board, 0)?;
    Ok(())
}

/// What the board's image is then.
fn zero_image(rt: &impl Abort, alloc: Global, board: &mut MemBoard) -> Result<Bytes, Fail> {
    begin_at_zero(rt, board)?;
    Ok(board.image(alloc)?)
}

/// An image with a header of sequence 0.
fn image_of_zero(rt: &impl Abort, alloc: Global) -> Result<Bytes, Fail> {
    let mut board = MemBoard::blank(alloc, KEY, BLOCKS)?;
    let image = zero_image(rt, alloc, &mut board);
    drop(board);
    image
}

/// The first commit behind sequence 0, between two losses of power.
fn rows_at_zero(pick: u64) -> [Row; 6] {
    [
        Row::Sequence(0),
        Row::Reopen(0),
        Row::Power(pick, 0),
        Row::Replace(MOST, 0x11, Ok(1)),
        Row::Power(pick, 1),
        Row::Filled(0x11),
    ]
}

#[test]
fn a_header_of_sequence_0_is_opened(rt: HostRuntime) -> Result<(), Fail> {
    let image = image_of_zero(&rt, rt.alloc())?;
    for pick in [0, 1] {
        run_over(&rt, rt.alloc(), &image, 0, &[], &rows_at_zero(pick))?;
    }
    Ok(())
}

/// Whether the board isn't opened, since its image, of this sequence, is older than its counter.
fn is_refused(alloc: Global, board: MemBoard, sequence: u64, counter: u64) -> bool {
    match opened(alloc, board) {
        Ok(_) => false,
        Err(why) => why == OpenAnswer::Rollback { sequence, counter },
    }
}

/// The image of the next sequence: the leaves are replaced once more.
fn image_after(
    rt: &impl Abort,
    alloc: Global,
    image: &Bytes,
    sequence: u64,
) -> Result<Bytes, Fail> {
    let next = Row::Replace(1, NEW, Ok(sequence.wrapping_add(1)));
    let board = board_of(rt, alloc, image, sequence, &[])?;
    let board = run(rt, alloc, board, &[Row::Sequence(sequence), next])?;
    let after = board.image(alloc);
    drop(board);
    Ok(after?)
}

/// The counter behind which four older images are left.
const COUNTER: u64 = 6;

#[test]
fn four_older_images_are_refused(rt: HostRuntime) -> Result<(), Fail> {
    let mut image = image_of_two(&rt, rt.alloc())?;
    for sequence in 2..COUNTER {
        let board = board_of(&rt, rt.alloc(), &image, COUNTER, &[])?;
        assert!(rt; is_refused(rt.alloc(), board, sequence, COUNTER));
        image = image_after(&rt, rt.alloc(), &image, sequence)?;
    }
    run_over(
        &rt,
        rt.alloc(),
        &image,
        COUNTER,
        &[],
        &[Row::Sequence(COUNTER)],
    )?;
    Ok(())
}
