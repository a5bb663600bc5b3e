//! The bytes that were written, for contracts alone.

use std::marker::Model;
use std::snapshot::Snapshot;

/// The bytes that were written. Only contracts see them: they have no bytes here.
#[derive(Drop)]
#[cycle(told)]
pub struct Told {
    link: Link,
}

#[derive(Drop)]
#[cycle(told)]
enum Link {
    Start,
    Then(Snapshot<Told>, Snapshot<u8>),
}

impl Model for Told {
    ghost use Rattle.std.specs.Prelude.{List, ℕ, length};
    ghost use Rattle.std.specs.Coded.{coded_list, coded_ℕ};

    ghost Value = { List ℕ };

    ghost coded = { coded_list coded_ℕ };

    ghost use Rattle.summary.specs.Told.{bytes_of};

    ghost view = { λ t. bytes_of t.link };

    ghost size = { length };
}

impl Told {
    ghost use Rattle.std.specs.Prelude.{◌≡◌, ◌++◌, ◌∷◌, []};

    /// Nothing yet.
    pub fn nothing() -> Told
        ensures { result ≡ [] }
    {
        Told { link: Link::Start }
    }

    /// With one byte more.
    pub fn then(&self, byte: u8) -> Told
        ensures { result ≡ self.now ++ byte ∷ [] }
    {
        Told {
            link: Link::Then(Snapshot::of(self), Snapshot::of(&byte)),
        }
    }
}
