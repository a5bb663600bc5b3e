//! The orders that were made to a board: the sum of their numbers, and, for contracts alone, what the board was at each.
ghost use Rattle.std.specs.Prelude.{◌≡◌, [], ◌∷◌, map};
ghost use Rattle.tee_base.specs.Moments.{sum_of_orders};
ghost use Rattle.boards.specs.Device.{OfDisk, OfFiles, order_of};

use crate::disk::Disk;
use std::marker::Model;
use std::snapshot::Snapshot;

/// What a board was between two calls. It has no bytes.
#[derive(Drop)]
pub struct Seen {
    kind: Kind,
}

#[derive(Drop)]
enum Kind {
    Disk(Snapshot<Disk>),
    Files(Snapshot<u64>, Snapshot<u64>),
}

impl Model for Seen {
    ghost use Rattle.boards.specs.Device.{Device};

    ghost Value = { Device };

    ghost use Rattle.boards.specs.Orders.{device};

    ghost view = { λ a. device a.kind };
}

impl Seen {
    /// A disk in memory.
    pub fn disk(disk: &Disk) -> Seen
        ensures { result ≡ OfDisk disk.now }
    {
        Seen {
            kind: Kind::Disk(Snapshot::of(disk)),
        }
    }

    /// Files, with these counts of faults and of orders.
    pub fn files(faults: u64, orders: u64) -> Seen
        ensures { result ≡ OfFiles faults orders }
    {
        Seen {
            kind: Kind::Files(Snapshot::of(&faults), Snapshot::of(&orders)),
        }
    }
}

/// The orders, the last of them first. Only the sum of their numbers has bytes.
#[derive(Drop)]
#[cycle(orders)]
pub struct Orders {
    sum: u64,
    link: Link,
}

#[derive(Drop)]
#[cycle(orders)]
enum Link {
    Start,
    Then(Snapshot<u64>, Snapshot<Seen>, Snapshot<Seen>, Snapshot<Orders>),
}

impl Model for Orders {
    ghost use Rattle.std.specs.Prelude.{◌≡◌, List, length, map};
    ghost use Rattle.tee_base.specs.Moments.{sum_of_orders};
    ghost use Rattle.boards.specs.Device.{Made, order_of};

    ghost Value = { List Made };

    ghost use Rattle.boards.specs.Orders.{made};

    ghost view = { λ a. made a.link };

    ghost invariant = { λ a. a.sum ≡ sum_of_orders (map order_of (made a.link)) };

    ghost size = { length };
}

impl Orders {
    /// None yet.
    pub fn none() -> Orders
        ensures { result ≡ [] }
    {
        Orders {
            sum: 0,
            link: Link::Start,
        }
    }

    /// One order later, with this number.
    pub fn then(&self, number: u64, before: &Seen, after: &Seen) -> Orders
        ensures { result
            ≡ record { number = number; before = before.now; after = after.now } ∷ self.now }
    {
        Orders {
            sum: self.sum.wrapping_add(number),
            link: Link::Then(
                Snapshot::of(&number),
                Snapshot::of(before),
                Snapshot::of(after),
                Snapshot::of(self),
            ),
        }
    }

    /// The sum of their numbers, modulo 2^64.
    pub fn sum(&self) -> u64
        ensures { result ≡ sum_of_orders (map order_of self.now) }
    {
        self.sum
    }
}
