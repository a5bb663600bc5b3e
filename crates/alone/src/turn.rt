//! How a turn went.

ghost use Rattle.std.specs.Prelude.{◌≡◌};
ghost use Rattle.alone.specs.Kinds.{kind_by};

use object_asks::TurnKind as Served;

/// How a turn of an instance went.
#[derive(Clone, Copy, Debug, PartialEq, Eq)]
pub enum TurnKind {
    /// The store served what was asked of it, or had no part in it, or answered that it is lost.
    Plain,
    /// A call of the store failed, and it is lost from now on. `change` says whether a change of it is in doubt.
    Lost { change: bool },
    /// There was no memory for it: the instance is gone, and the store is as it was.
    Starved,
    /// What the store read is damaged.
    Corrupted,
}

impl TurnKind {
    /// How a turn went in which the store did so.
    pub fn of(served: Served) -> TurnKind
        ensures { result ≡ kind_by served }
    {
        match served {
            Served::Plain => TurnKind::Plain,
            Served::Lost { change } => TurnKind::Lost { change },
            Served::Corrupted => TurnKind::Corrupted,
        }
    }
}
