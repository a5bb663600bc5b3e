//! The counts of a board over files, and its fuse.
ghost use Rattle.std.specs.Prelude.{◌≡◌, ◌+◌, ◌%◌, ◌^◌, ◌≤◌, false, Ok, is_ok, IfOk, if◌then◌else◌, [], ◌∷◌};
ghost use Rattle.board.specs.Fuse.{fuse_after_call, fate_by, passes};
ghost use Rattle.board.specs.Steps.{up_to_limit};
ghost use Rattle.tee_base.specs.Faults.{Rose};
ghost use Rattle.board.specs.declared.fuse.Fuse.TheVariants.{Unset};
ghost use Rattle.boards.specs.Device.{OfFiles};

use crate::orders::{Orders, Seen};
use board::BoardFailed;
use board::fuse::{Fate, Fuse};
use std::io;

/// How many calls failed, were writes, were orders, and the orders.
#[derive(Drop)]
pub struct Counts {
    pub fuse: Fuse,
    pub faults: u64,
    pub writes: u64,
    pub orders: u64,
    pub ordered: Orders,
}

impl Counts {
    /// Before the first call.
    pub fn new() -> Counts
        ensures { result
            ≡ record { fuse = Unset; faults = 0; writes = 0; orders = 0; ordered = [] } }
    {
        Counts {
            fuse: Fuse::Unset,
            faults: 0,
            writes: 0,
            orders: 0,
            ordered: Orders::none(),
        }
    }

    /// Takes a call from the fuse. An interrupted call fails before it does anything.
    pub fn begin(&mut self) -> Result<(), BoardFailed>
        ensures ok { is_ok result ≡ passes (fate_by self.old.fuse) }
        ensures after { self.new ≡ record self.old {
          fuse = fuse_after_call self.old.fuse;
          faults = if is_ok result then self.old.faults else up_to_limit (self.old.faults + 1);
        } }
        ensures later { self.old.faults ≤ self.new.faults }
        ensures cause { is_ok result ≡ false → Rose self.old.faults self.new.faults }
    {
        if self.fuse.next() == Fate::Pass {
            Ok(())
        } else {
            Err(self.fail())
        }
    }

    /// The answer of the call, by that of the files.
    pub fn end<T: Drop>(&mut self, answer: io::Result<T>) -> Result<T, BoardFailed>
        ensures ok { is_ok result ≡ is_ok answer }
        ensures value { IfOk result (λ value. answer ≡ Ok value) }
        ensures after { self.new ≡ record self.old {
          faults = if is_ok result then self.old.faults else up_to_limit (self.old.faults + 1);
        } }
        ensures later { self.old.faults ≤ self.new.faults }
        ensures cause { is_ok result ≡ false → Rose self.old.faults self.new.faults }
    {
        match answer {
            Ok(value) => Ok(value),
            Err(_) => Err(self.fail()),
        }
    }

    fn fail(&mut self) -> BoardFailed
        ensures after { self.new ≡ record self.old { faults = up_to_limit (self.old.faults + 1) } }
        ensures later { self.old.faults ≤ self.new.faults }
        ensures cause { Rose self.old.faults self.new.faults }
    {
        self.faults = self.faults.saturating_add(1);
        BoardFailed
    }

    /// Counts an order with this number.
    pub fn order(&mut self, number: u64)
        ensures { self.new ≡ record self.old {
          orders = (self.old.orders + 1) % 2 ^ 64;
          ordered = record {
            number = number;
            before = OfFiles self.old.faults self.old.orders;
            after = OfFiles self.old.faults ((self.old.orders + 1) % 2 ^ 64);
          } ∷ self.old.ordered;
        } }
    {
        let before = Seen::files(self.faults, self.orders);
        self.orders = self.orders.wrapping_add(1);
        let after = Seen::files(self.faults, self.orders);
        self.ordered = self.ordered.then(number, &before, &after);
    }
}
