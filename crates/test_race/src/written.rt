//! The board is written while the race runs.

use super::counted::{Counted, Noting};
use super::racing::{blank, race_of, race_on};
use std::sync::Arc;
use std::sync::atomic::AtomicU64;
use tee_base::limits;

const MAKE: &str = "vault open 1\nvault invoke 1 2 mi:61 vi:3:0 mi:31 vo\nvault close 1\n";

#[test]
fn an_object_is_written_before_the_next_line(rt: HostRuntime) {
    let writes = Arc::new(rt.alloc(), AtomicU64::new(0)).expect(&rt, "a number");
    let shared = Arc::try_clone(&writes).expect(&rt, "the number");
    let gate = Noting::of(writes);
    let board = Counted::of(blank(&rt, rt.alloc(), limits::BOARD_BLOCKS), shared);
    let (number, written) = race_on(&rt, rt.alloc(), race_of(MAKE), board, &gate);
    drop(written);
    let [first, second, third] = gate.noted();
    assert!(rt; number == 0 && first == second && second < third);
}
