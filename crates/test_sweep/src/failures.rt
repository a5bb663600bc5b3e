//! A script that writes an object, and of which a single call of the board fails.

use super::runs::{Ran, blank, run_on};
use boards::MemBoard;
use std::alloc::Global;
use std::process::Abort;

/// What is written where no call fails.
const CLEAN: &str = "vault 1 00000000 4\nvault 2 00000000 4 p3=1,0\nvault 3 00000000 4\n\
board power clean\nvault 4 00000000 4\nvault 5 00000000 4 p2=1,0\nvault 6 00000000 4 p1=3:6e6577\n";

/// A script that writes three bytes over three others, and reads them after a loss of power.
fn whole_write(rt: &impl Abort, alloc: Global, pick: u8) -> String {
    format!(in alloc;
        "vault open 1\nvault invoke 1 2 mi:61 vi:7:0 mi:6f6c64 vo\nvault invoke 1 8 vi:1:0 mi:6e6577\n\
board power {pick}\nvault open 1\nvault invoke 1 1 mi:61 vi:1:1 vo\nvault invoke 1 7 vi:1:3 mo:8\n"
    )
    .expect(rt, "a script")
}

/// Whether the run met the failure: an opening failed, or an application lost the storage.
fn is_told(ran: &Ran) -> bool {
    ran.number == 75 || (ran.is_done() && ran.has("board lost vault "))
}

/// A script that looks for the object, reads all of it, and lists the objects.
const LOOK: &str = "vault open 1\nvault invoke 1 1 mi:61 vi:1:1 vo\nvault invoke 1 7 vi:1:8 mo:8\n\
vault invoke 1 11 mo:64\n";

const NOTHING_THERE: &str = "vault 1 00000000 4\nvault 2 ffff0008 4 p2=0,0\n";

const OLD_THERE: &str =
    "vault 1 00000000 4\nvault 2 00000000 4 p2=1,0\nvault 3 00000000 4 p1=3:6f6c64\n\
vault 4 00000000 4 p0=2:0161\n";

const NEW_THERE: &str =
    "vault 1 00000000 4\nvault 2 00000000 4 p2=1,0\nvault 3 00000000 4 p1=3:6e6577\n\
vault 4 00000000 4 p0=2:0161\n";

/// What a look writes first after a run with these lines. Of the object's making and its writing the lines tell whether each was answered with
/// success, and whether a loss of power kept the one in doubt.
fn wanted_after(ran: &Ran) -> &'static str {
    let made = ran.has("vault 2 00000000 4 p3=1,0\n");
    let put = ran.has("vault 3 00000000 4\n");
    let kept = ran.has("board power kept vault\n");
    if put || (made && kept) {
        return NEW_THERE;
    }
    if made || kept {
        OLD_THERE
    } else {
        NOTHING_THERE
    }
}

/// Whether a later run over the board writes this first.
fn finds(rt: &impl Abort, alloc: Global, board: MemBoard, wanted: &str) -> bool {
    let (looked, board) = run_on(rt, alloc, board, LOOK);
    drop(board);
    looked.is_done() && looked.written.as_slice().starts_with(wanted.as_bytes())
}

/// How a run ends whose call of some number fails.
enum Failure {
    /// There is no such call.
    NoCall,
    /// The failure is told, and the board has what the lines say.
    Told,
    Wrong,
}

/// Fails this call.
fn failed_at(rt: &impl Abort, alloc: Global, call: u64, pick: u8) -> Failure {
    let mut board = blank(rt, alloc);
    board.failing(&[call]).expect(rt, "a schedule");
    let script = whole_write(rt, alloc, pick);
    let (ran, board) = run_on(rt, alloc, board, script.as_str());
    if ran.is_done() && ran.wrote(CLEAN) {
        drop(board);
        return Failure::NoCall;
    }
    let is_found = finds(rt, alloc, board, wanted_after(&ran));
    if is_told(&ran) && is_found {
        Failure::Told
    } else {
        Failure::Wrong
    }
}

/// Fails each call in turn. How many there are, if each failure is told.
fn calls_told(rt: &impl Abort, alloc: Global, pick: u8) -> Option<u64> {
    for call in 0..512 {
        match failed_at(rt, alloc, call, pick) {
            Failure::NoCall => return Some(call),
            Failure::Told => {}
            Failure::Wrong => return None,
        }
    }
    None
}

/// Whether a run has many calls, and each that fails is told with these picks of what a loss of power leaves.
fn are_told(rt: &impl Abort, alloc: Global, picks: &[u8]) -> bool {
    for pick in picks {
        match calls_told(rt, alloc, *pick) {
            Some(calls) if calls > 20 => {}
            _ => return false,
        }
    }
    true
}

#[test]
fn a_single_call_fails_with_each_of_sixteen_picks(rt: HostRuntime) {
    let picks = [0, 1, 2, 3, 4, 5, 6, 7, 8, 9, 10, 11, 12, 13, 14, 15];
    assert!(rt; are_told(&rt, rt.alloc(), &picks));
}
