//! How often something was done, for contracts alone.

use std::marker::Model;
use std::snapshot::Snapshot;

/// How often something was done. Only contracts see it: it has no bytes.
#[derive(Drop)]
#[cycle(tally)]
pub struct Tally {
    count: Count,
}

#[derive(Drop)]
#[cycle(tally)]
enum Count {
    Zero,
    OneMore(Snapshot<Tally>),
}

impl Model for Tally {
    ghost use Rattle.std.specs.Prelude.{ℕ};
    ghost use Rattle.std.specs.Coded.{coded_ℕ};

    ghost Value = { ℕ };

    ghost coded = { coded_ℕ };

    ghost use Rattle.store_api.specs.Tallies.{number_of};

    ghost view = { λ t. number_of t.count };

    ghost size = { λ n. n };
}

impl Tally {
    ghost use Rattle.std.specs.Prelude.{◌≡◌, ◌+◌};

    /// Never so far.
    pub fn none() -> Tally
        ensures { result ≡ 0 }
    {
        Tally { count: Count::Zero }
    }

    /// Once more.
    pub fn one_more(&self) -> Tally
        ensures { result ≡ self.now + 1 }
    {
        Tally {
            count: Count::OneMore(Snapshot::of(self)),
        }
    }
}
