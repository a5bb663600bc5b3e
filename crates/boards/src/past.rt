//! What a disk was at each call so far. It is there for contracts alone, and has no bytes.
ghost use Rattle.std.specs.Prelude.{◌≡◌, [], ◌∷◌};

use crate::disk::Disk;
use std::marker::Model;
use std::snapshot::Snapshot;

/// The disks that were, the last of them first.
#[derive(Drop)]
#[cycle(past)]
pub struct Past {
    link: Link,
}

#[derive(Drop)]
#[cycle(past)]
enum Link {
    Start,
    Then(Snapshot<Disk>, Snapshot<Past>),
}

impl Model for Past {
    ghost use Rattle.std.specs.Prelude.{List, length};
    ghost use Rattle.boards.specs.declared.disk.Disk.{Disk};

    ghost Value = { List Disk };

    ghost use Rattle.boards.specs.Past.{disks};

    ghost view = { λ a. disks a.link };

    ghost size = { length };
}

impl Past {
    /// Before the first call.
    pub fn start() -> Past
        ensures { result ≡ [] }
    {
        Past { link: Link::Start }
    }

    /// One call later.
    pub fn then(&self, disk: &Disk) -> Past
        ensures { result ≡ disk.now ∷ self.now }
    {
        Past {
            link: Link::Then(Snapshot::of(disk), Snapshot::of(self)),
        }
    }
}
