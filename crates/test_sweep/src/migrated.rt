//! Runs over a board with an image of the first version: its object is found, also where the opening was stopped before.

use super::runs::run_on;
use board::{Board, BoardFailed};
use boards::MemBoard;
use std::alloc::Global;
use std::process::Abort;
use tee_base::limits;
use test_old_image::{Forgetful, OldObject, OldRegions, raise_counter, write_image};

/// The sequence of the image.
const SEQUENCE: u64 = 5;

/// The object of the first host, whose content is `old`.
const OBJECT: OldObject<'static> = OldObject {
    region: 0,
    leaf: 1,
    kind: 0xA000_00BF,
    usage: 0xFFFF_FFFF,
    id: b"a",
    content: b"old",
};

/// A script that opens it and reads it.
const FIND: &str = "vault open 1\nvault invoke 1 1 mi:61 vi:1:1 vo\nvault invoke 1 7 vi:1:3 mo:8\n";

/// What is written last then.
const FOUND: &[u8] = b"vault 3 00000000 4 p1=3:6f6c64\n";

/// What is written last after a loss of power, for the sixth operation.
const AGAIN: &[u8] = b"vault 6 00000000 4 p1=3:6f6c64\n";

/// The number of a loss of power that leaves the bytes which were offered to the first pending block.
const PICK: u64 = 1;

/// Gives the board the image at this sequence, with the same counter.
fn fill<B: Board>(board: &mut B, regions: &OldRegions, sequence: u64) -> Result<(), BoardFailed> {
    write_image(board, regions, sequence)?;
    raise_counter(board, sequence)
}

/// A board with the image at this sequence, and with the same counter.
fn board_at(rt: &impl Abort, alloc: Global, sequence: u64) -> MemBoard {
    let mut regions = OldRegions::blank(alloc).expect(rt, "regions");
    regions.put_object(&OBJECT);
    let mut board = MemBoard::blank(alloc, [0; 32], limits::BOARD_BLOCKS).expect(rt, "a board");
    let filled = fill(&mut board, &regions, sequence);
    drop(regions);
    assert!(rt; filled.is_ok());
    board
}

/// The version and the sequence of the header of slot 0.
fn header_of<B: Board>(board: &mut B) -> Result<(u8, u8), BoardFailed> {
    if board.blocks() < 2 {
        return Err(BoardFailed);
    }
    let mut block = [0; 1024];
    board.read(1, &mut block)?;
    Ok((block[8], block[16]))
}

/// Whether the board has the next sequence in the second version.
fn is_taken_over<B: Board>(board: &mut B) -> bool {
    matches!(header_of(board), Ok((2, 6))) && matches!(board.counter(), Ok(6))
}

/// Whether a run finds the object, and takes the image over.
fn is_found(rt: &impl Abort, alloc: Global, board: MemBoard) -> bool {
    let (ran, mut board) = run_on(rt, alloc, board, FIND);
    let is_new = is_taken_over(&mut board);
    drop(board);
    is_new && ran.is_done() && ran.written.as_slice().ends_with(FOUND)
}

/// How a run ends whose opening is stopped after some number of calls.
enum Stop {
    /// The opening makes no more calls.
    NoCall,
    /// The opening failed, and a later run finds the object.
    Found,
    Wrong,
}

/// Stops the opening after so many calls.
fn stopped_at(rt: &impl Abort, alloc: Global, calls: u32) -> Stop {
    let mut board = board_at(rt, alloc, SEQUENCE);
    board.fuse(calls);
    let (ran, mut board) = run_on(rt, alloc, board, FIND);
    if ran.number != 75 {
        drop(board);
        return Stop::NoCall;
    }
    board.power(PICK);
    if is_found(rt, alloc, board) {
        Stop::Found
    } else {
        Stop::Wrong
    }
}

/// Stops the opening at each of its calls. How many there are, if the object is found each time.
fn calls_stopped(rt: &impl Abort, alloc: Global) -> Option<u32> {
    for calls in 0..1_000 {
        match stopped_at(rt, alloc, calls) {
            Stop::NoCall => return Some(calls),
            Stop::Found => {}
            Stop::Wrong => return None,
        }
    }
    None
}

#[test]
fn an_opening_of_the_first_version_is_stopped_at_each_call(rt: HostRuntime) {
    let calls = calls_stopped(&rt, rt.alloc());
    assert!(rt; matches!(calls, Some(calls) if calls > 30));
}

/// A script whose write is lost on a board that forgets then, and that looks for the object after a loss of power.
const LOSE: &str = "vault open 1\nvault invoke 1 1 mi:61 vi:3:1 vo\nboard fuse 0\n\
vault invoke 1 8 vi:1:0 mi:6e6577\nboard power 1\nvault open 1\nvault invoke 1 1 mi:61 vi:1:1 vo\n\
vault invoke 1 7 vi:1:3 mo:8\n";

/// A sequence at which the image is found again, and what the power tells then of the change in doubt. The last acknowledged one
/// is 6, and each image is taken over to the next sequence.
const FOUND_AGAIN: &[(u64, &str)] = &[
    (5, "board power absent vault\n"),
    (6, "board power absent vault\n"),
    (7, "board power kept vault\n"),
];

/// Whether the power tells this of the change in doubt where the image is found again at this sequence.
fn tells(rt: &impl Abort, alloc: Global, sequence: u64, told: &str) -> bool {
    let first = board_at(rt, alloc, SEQUENCE);
    let board = Forgetful::of(first, board_at(rt, alloc, sequence));
    let (ran, mut board) = run_on(rt, alloc, board, LOSE);
    let counter = board.counter();
    drop(board);
    let is_next = matches!(counter, Ok(next) if next == sequence.saturating_add(1));
    is_next && ran.is_done() && ran.has(told) && ran.written.as_slice().ends_with(AGAIN)
}

#[test]
fn a_change_in_doubt_goes_by_the_sequence_that_was_found(rt: HostRuntime) {
    for (sequence, told) in FOUND_AGAIN {
        assert!(rt; tells(&rt, rt.alloc(), *sequence, told));
    }
}
