//! A gate at which two clients wait for each other.

use shared_tee::Gate;
use std::sync::atomic::{AtomicU64, Ordering};

/// How often a client looks for the other one.
const LOOKS: u64 = 1_000_000_000;

/// The line before which the two wait.
const MEETING_LINE: u32 = 2;

/// What one of the two clients did.
#[derive(Drop)]
struct Visitor {
    has_come: AtomicU64,
    saw_other: AtomicU64,
}

impl Visitor {
    fn new() -> Visitor {
        Visitor {
            has_come: AtomicU64::new(0),
            saw_other: AtomicU64::new(0),
        }
    }
}

/// A gate that holds each of the clients 0 and 1 before its second line until the other one has come to its own second line. After
/// many looks in vain it lets the client go on.
#[derive(Drop)]
pub struct Meeting {
    first: Visitor,
    second: Visitor,
}

impl Meeting {
    /// Nobody has come yet.
    pub fn new() -> Meeting {
        Meeting {
            first: Visitor::new(),
            second: Visitor::new(),
        }
    }

    /// Whether each of the two saw the other.
    pub fn have_met(&self) -> bool {
        self.first.saw_other.load(Ordering::SeqCst) == 1
            && self.second.saw_other.load(Ordering::SeqCst) == 1
    }
}

/// One of the two comes, and looks for the other.
fn come(own: &Visitor, other: &Visitor) {
    own.has_come.store(1, Ordering::SeqCst);
    for _ in 0..LOOKS {
        if other.has_come.load(Ordering::SeqCst) == 1 {
            own.saw_other.store(1, Ordering::SeqCst);
            return;
        }
    }
}

impl Gate for Meeting {
    fn at(&self, client: u8, line: u32) {
        if line != MEETING_LINE {
            return;
        }
        match client {
            0 => come(&self.first, &self.second),
            1 => come(&self.second, &self.first),
            _ => {}
        }
    }
}
