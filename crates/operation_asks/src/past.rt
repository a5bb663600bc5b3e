//! What was done with operations and the random stream, for contracts alone.

use app_api::Ask;
use std::marker::Model;
use std::snapshot::Snapshot;
use transient_obj::KeyLook;

/// Something that was done.
#[derive(Drop)]
pub enum Did {
    /// The application began, in this boot.
    Began {
        seed: Snapshot<[u8; 32]>,
        application: u8,
        boot: u32,
    },
    /// An ask of the instance was served.
    Asked {
        instance: u8,
        ask: Snapshot<Ask>,
    },
    /// An operation of the instance was given a key.
    KeySet {
        instance: u8,
        op: u32,
        given: Snapshot<KeyLook>,
    },
    /// Random bytes were taken.
    Drew {
        count: u32,
    },
    /// The instance ended.
    Ended {
        instance: u8,
    },
}

/// All that was done, the last of it first. Only contracts see it: it has no bytes.
#[derive(Drop)]
#[cycle(past)]
pub struct Past {
    link: Link,
}

#[derive(Drop)]
#[cycle(past)]
enum Link {
    Nothing,
    Then(Snapshot<Did>, Snapshot<Past>),
}

impl Model for Past {
    ghost use Rattle.std.specs.Prelude.{List, ℕ, length};
    ghost use Rattle.operation_asks.specs.declared.past.Did.{Did};

    ghost Value = { List Did };

    ghost use Rattle.operation_asks.specs.Links.{done_in};

    ghost view = { λ p. done_in p.link };

    ghost size = { length };
}

impl Past {
    ghost use Rattle.std.specs.Prelude.{◌≡◌, [], ◌∷◌};

    /// Nothing so far.
    pub fn nothing() -> Past
        ensures { result ≡ [] }
    {
        Past {
            link: Link::Nothing,
        }
    }

    /// This too.
    pub fn then(&self, did: &Did) -> Past
        ensures { result ≡ did.now ∷ self.now }
    {
        Past {
            link: Link::Then(Snapshot::of(did), Snapshot::of(self)),
        }
    }
}
