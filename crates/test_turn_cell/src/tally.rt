//! A value of two parts, of which each seat counts its own.

ghost use Rattle.std.specs.Prelude.{◌<◌, ◌∷◌, []};
ghost use mathlib.Core.List.{IsPrefix};
ghost use Rattle.turn_cell.specs.View.{ChangesOnlyWithin};

use turn_cell::Parted;

/// How often each of two seats counted, and which of them counted when.
#[derive(Drop)]
pub struct Tally {
    pub first: u64,
    pub second: u64,
    pub counted: Vec<u32>,
}

impl Parted for Tally {
    type Part = u64;

    type Entry = u32;

    ghost use Rattle.std.specs.Prelude.{[], ◌∷◌};

    ghost parts_of = { λ tally. tally.first ∷ tally.second ∷ [] };

    ghost trail_of = { λ tally. tally.counted.items };

    fn parts(&self) -> u32 {
        2
    }
}

impl Tally {
    /// Counts for the seat that owns this part. Without memory it counts nothing.
    pub fn count(&mut self, part: u32)
        requires { part < 2 }
        ensures parts { ChangesOnlyWithin part 1 (self.old.first ∷ self.old.second ∷ [])
            (self.new.first ∷ self.new.second ∷ []) }
        ensures trail { IsPrefix self.old.counted.items self.new.counted.items }
    {
        if self.counted.push(part).is_err() {
            return;
        }
        if part == 0 {
            self.first = self.first.wrapping_add(1);
        } else {
            self.second = self.second.wrapping_add(1);
        }
    }
}
