//! Which calls of a device in memory are interrupted.
ghost use Rattle.std.specs.Prelude.{◌≡◌, ◌+◌, ◌++◌, OnOk, OnErr};
ghost use Rattle.board.specs.Fuse.{fuse_after_call, fate_by};
ghost use Rattle.board.specs.Steps.{up_to_limit};
ghost use Rattle.boards.specs.Memory.{fate_of, is_named};

use board::fuse::{Fate, Fuse};
use tee_base::NoMemory;

/// The calls so far, the numbers of those that are to be interrupted, and the fuse.
#[derive(Drop)]
pub struct Schedule {
    pub failing: Vec<u64>,
    pub calls: u64,
    pub fuse: Fuse,
}

impl Schedule {
    /// Counts a call, and says what becomes of it.
    pub fn next(&mut self) -> Fate
        ensures fate { result
            ≡ fate_of (is_named self.old.calls self.old.failing.items) (fate_by self.old.fuse) }
        ensures calls { self.new.calls ≡ up_to_limit (self.old.calls + 1) }
        ensures fuse { self.new.fuse ≡ fuse_after_call self.old.fuse }
        ensures failing { self.new.failing ≡ self.old.failing }
    {
        let named = self.failing.contains(&self.calls);
        self.calls = self.calls.saturating_add(1);
        let fate = self.fuse.next();
        if named && fate == Fate::Pass {
            return Fate::Interrupt;
        }
        fate
    }

    /// Names more calls.
    pub fn name(&mut self, calls: &[u64]) -> Result<(), NoMemory>
        ensures ok { OnOk result (self.new.failing.items ≡ self.old.failing.items ++ calls.now) }
        ensures err { OnErr result (self.new.failing.items ≡ self.old.failing.items) }
        ensures calls { self.new.calls ≡ self.old.calls }
        ensures fuse { self.new.fuse ≡ self.old.fuse }
    {
        self.failing.extend_from_slice(calls)?;
        Ok(())
    }
}
