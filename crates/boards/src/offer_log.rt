//! What writes offered to blocks so far. It is there for contracts alone, and has no bytes.
ghost use Rattle.std.specs.Prelude.{◌≡◌, [], ◌∷◌};

use std::marker::Model;
use std::snapshot::Snapshot;

/// The offers that were made, the last of them first.
#[derive(Drop)]
#[cycle(offer_log)]
pub struct OfferLog {
    link: Link,
}

#[derive(Drop)]
#[cycle(offer_log)]
enum Link {
    Start,
    Then(Snapshot<usize>, Snapshot<[u8; 1024]>, Snapshot<OfferLog>),
}

impl Model for OfferLog {
    ghost use Rattle.std.specs.Prelude.{List, length};
    ghost use Rattle.boards.specs.Offer.{Offer};

    ghost Value = { List Offer };

    ghost use Rattle.boards.specs.OfferLog.{offers};

    ghost view = { λ a. offers a.link };

    ghost size = { length };
}

impl OfferLog {
    /// Before the first.
    pub fn start() -> OfferLog
        ensures { result ≡ [] }
    {
        OfferLog { link: Link::Start }
    }

    /// One offer later.
    pub fn then(&self, block: usize, bytes: &[u8; 1024]) -> OfferLog
        ensures { result ≡ record { block = block; bytes = bytes.now } ∷ self.now }
    {
        OfferLog {
            link: Link::Then(
                Snapshot::of(&block),
                Snapshot::of(bytes),
                Snapshot::of(self),
            ),
        }
    }
}
