//! Boards that are too small, and a workload whose board stops.

use super::runs::{blank, run_on, run_words};
use board::Board;
use boards::MemBoard;
use std::alloc::Global;
use std::process::Abort;

/// How many blocks a board has that is too small: as many as version 1 needs, and one less than this version does.
const TOO_FEW: &[u64] = &[8_742, 43_719];

/// Whether a run over a board of so many blocks is refused.
fn is_refused(rt: &impl Abort, alloc: Global, blocks: u64) -> bool {
    let board = MemBoard::blank(alloc, [0; 32], blocks).expect(rt, "a board");
    let (ran, board) = run_on(rt, alloc, board, "keep open 1\n");
    drop(board);
    ran.number == 67 && ran.written.is_empty()
}

#[test]
fn a_board_that_is_too_small_is_refused(rt: HostRuntime) {
    for blocks in TOO_FEW {
        assert!(rt; is_refused(&rt, rt.alloc(), *blocks));
    }
}

/// After how many calls the board stops: in the opening, and in a turn.
const STOPS: &[u32] = &[0, 100];

/// Whether a workload has no summary where its board stops after so many calls.
fn has_no_summary(rt: &impl Abort, alloc: Global, calls: u32) -> bool {
    let mut board = blank(rt, alloc);
    board.fuse(calls);
    let words = [
        String::from_str(alloc, "gen").expect(rt, "a word"),
        String::from_str(alloc, "7").expect(rt, "a number"),
    ];
    let (ran, board) = run_words(rt, alloc, words.as_slice(), "", board);
    drop(board);
    ran.number == 75 && ran.written.is_empty()
}

#[test]
fn a_workload_that_fails_has_no_summary(rt: HostRuntime) {
    for calls in STOPS {
        assert!(rt; has_no_summary(&rt, rt.alloc(), *calls));
    }
}
