//! What is found behind an opening that took an image over, and behind one that was stopped at a call.

ghost use Rattle.std.specs.Prelude.{◌<◌};

use super::images::{BLOCKS, OBJECT, SEQUENCE, board_of, one, sixteen};
use crate::kept::is_kept;
use board::{Board, BoardFailed};
use boards::MemBoard;
use epoch::{BoardVolume, OpenAnswer};
use object_dir::ObjectDir;
use std::alloc::Global;
use std::process::Abort;
use std::test::Fail;
use store_api::{AppStore, StoreAnswer, Volume};
use tree_volume::TreeVolume;

/// The number of a loss of power that leaves the bytes which were offered to the first pending block.
pub const PICK: u64 = 1;

/// Whether the object is among those of a region, with its facts and its content.
fn has_object<S: AppStore>(objects: &mut S) -> Result<bool, StoreAnswer> {
    let facts = objects.find(b"a")?;
    let content = objects.read(b"a", 0, 8)?;
    Ok(
        facts.kind == OBJECT.kind
            && facts.usage == OBJECT.usage
            && content.as_slice() == OBJECT.content,
    )
}

/// Whether a region has the object.
fn is_found<B: Board + Drop>(alloc: Global, volume: &mut TreeVolume<B>, region: u8) -> bool
    requires { region < 16 }
{
    let mut objects = ObjectDir::of(alloc, volume, region);
    has_object(&mut objects) == Ok(true)
}

/// The version and the sequence of the header of slot 0.
fn header_of<B: Board>(board: &mut B) -> Result<(u8, u8), BoardFailed> {
    if board.blocks() < 2 {
        return Err(BoardFailed);
    }
    let mut block = [0; 1024];
    board.read(1, &mut block)?;
    Ok((block[8], block[16]))
}

/// The board is at the next sequence in the second version, and its counter too.
fn is_next<B: Board>(board: &mut B) -> bool {
    header_of(board) == Ok((2, 6)) && board.counter() == Ok(6)
}

/// The image was taken over, and the first regions have the object.
pub fn is_taken_over<B: Board + Drop>(
    rt: &impl Abort,
    alloc: Global,
    mut volume: TreeVolume<B>,
    regions: u8,
) -> B {
    assert!(rt; volume.sequence() == SEQUENCE + 1);
    for region in 0..16_u8 {
        assert!(rt; is_found(alloc, &mut volume, region) == (region < regions));
    }
    let mut board = volume.into_board();
    assert!(rt; is_next(&mut board));
    board
}

/// The bytes of a block.
fn bytes_of<B: Board>(board: &mut B, block: u64) -> Result<[u8; 1024], BoardFailed> {
    if board.blocks() <= block {
        return Err(BoardFailed);
    }
    let mut bytes = [0; 1024];
    board.read(block, &mut bytes)?;
    Ok(bytes)
}

/// The blocks of the first version, one after another.
fn old_blocks<B: Board>(alloc: Global, board: &mut B) -> Result<Vec<[u8; 1024]>, Fail> {
    let mut blocks = Vec::new(alloc);
    for block in 0..board.blocks() {
        if is_kept(block) {
            blocks.push(bytes_of(board, block)?)?;
        }
    }
    Ok(blocks)
}

/// Opens the board, finds the object in the first regions, and compares the blocks of the first version.
fn check(rt: &impl Abort, alloc: Global, mut board: MemBoard, regions: u8) -> Result<(), Fail> {
    let before = old_blocks(alloc, &mut board)?;
    match TreeVolume::open(alloc, board) {
        Ok(volume) => {
            let mut board = is_taken_over(rt, alloc, volume, regions);
            let after = old_blocks(alloc, &mut board)?;
            drop(board);
            assert!(rt; before.as_slice() == after.as_slice());
        }
        Err(unopened) => {
            drop(unopened);
            assert!(rt; false);
        }
    }
    Ok(())
}

#[test]
fn an_object_is_found_in_the_next_version(rt: HostRuntime) -> Result<(), Fail> {
    // the header may be one ahead of the counter
    for counter in [SEQUENCE - 1, SEQUENCE] {
        let board = board_of(rt.alloc(), &one(rt.alloc())?, BLOCKS, counter)?;
        check(&rt, rt.alloc(), board, 1)?;
    }
    Ok(())
}

#[test]
fn each_region_is_taken_over(rt: HostRuntime) -> Result<(), Fail> {
    let board = board_of(rt.alloc(), &sixteen(rt.alloc())?, BLOCKS, SEQUENCE)?;
    check(&rt, rt.alloc(), board, 16)
}

/// A board whose opening was stopped: the power is lost, and it is opened again.
fn is_opened_again(rt: &impl Abort, alloc: Global, mut board: MemBoard) {
    board.power(PICK);
    match TreeVolume::open(alloc, board) {
        Ok(volume) => drop(is_taken_over(rt, alloc, volume, 1)),
        Err(unopened) => {
            drop(unopened);
            assert!(rt; false);
        }
    }
}

/// Whether an opening makes no more than so many calls. Else it is stopped behind them, and the board opened again.
fn is_through(rt: &impl Abort, alloc: Global, calls: u32) -> Result<bool, Fail> {
    let mut board = board_of(alloc, &one(alloc)?, BLOCKS, SEQUENCE)?;
    board.fuse(calls);
    match TreeVolume::open(alloc, board) {
        Ok(volume) => {
            drop(volume);
            Ok(true)
        }
        Err(unopened) => {
            let why = unopened.why;
            assert!(rt; why == OpenAnswer::Failed);
            is_opened_again(rt, alloc, unopened.board);
            Ok(false)
        }
    }
}

#[test]
fn an_opening_is_stopped_at_each_call(rt: HostRuntime) -> Result<(), Fail> {
    for calls in 0..1_000 {
        if is_through(&rt, rt.alloc(), calls)? {
            assert!(&rt; calls > 30);
            return Ok(());
        }
    }
    assert!(&rt; false);
    Ok(())
}
