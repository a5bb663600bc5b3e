//! An application's value in its cell.

use crate::missed::Missed;
use crate::recorded::Recorded;
use crate::storage::Storage;
use app_api::Application;
use app_side::AppSide;
use std::alloc::Global;
use std::marker::{Model, PhantomData};
use std::snapshot::Snapshot;
use store_api::Volume;
use turn_cell::{CellSeat, Parted};

/// How many clients an application has.
pub const CLIENTS: usize = 8;

/// An application beside its log, with its seat of the storage's cell, and with what its clients' turns missed.
///
/// Its part of a client is the entries that the client made, and what its turns missed. Its trail is an origin, and then the log.
#[derive(Drop)]
pub struct HostedApp<V: Volume, A: Application> {
    pub(crate) alloc: Global,
    /// Its place among the applications, and so its part of the storage.
    pub(crate) app: u8,
    /// It is behind a pointer, since the value goes into its cell and out of it at each call.
    pub(crate) recorded: Box<Recorded<A>>,
    pub(crate) seat: CellSeat<Storage<V, A>>,
    /// The application as it began. It has no bytes.
    pub(crate) start: Snapshot<AppSide<A>>,
    /// What each client's turns missed.
    pub(crate) misses: [Missed; CLIENTS],
}

impl<V: Volume, A: Application> Model for HostedApp<V, A> {
    ghost use Rattle.std.specs.Coded.{codes};
    ghost use Rattle.store_api.specs.Stores.{coded_store};
    ghost use Rattle.shared_parts.specs.HostedApps.{HostedView};

    ghost Value = { HostedView V A };

    ghost coded = { Prim.hlevel (codes, coded_store) };

    ghost use Rattle.turn_cell.specs.Words.{cell_id_of, view as known};
    ghost use Rattle.shared_parts.specs.HostedApps.{IsHosted, origin_of};

    ghost view = { λ h. record {
      origin = origin_of (cell_id_of h.seat) (known h.seat) h.start.value;
      log = h.recorded.value.log.entries;
      misses = h.misses;
    } };

    ghost invariant = { λ h. IsHosted V.keeper A.behaviour h.app h.recorded.value.side h.recorded.value.log
        (cell_id_of h.seat) (known h.seat) h.start.value h.misses };
}

/// A client's part as seats see it. No value of it is made: it stands in contracts alone.
pub struct SeenClient {
    unseen: PhantomData<u8>,
}

impl Model for SeenClient {
    ghost use Rattle.shared_parts.specs.HostedApps.{ClientPart, no_client};

    ghost Value = { ClientPart };

    ghost view = { λ p. no_client };
}

/// An entry of the trail as seats see it. No value of it is made: it stands in contracts alone.
pub struct SeenEvent<V, A> {
    unseen: PhantomData<(V, A)>,
}

impl<V, A> Model for SeenEvent<V, A> {
    ghost use Rattle.std.specs.Coded.{codes};
    ghost use Rattle.store_api.specs.Stores.{coded_store};
    ghost use Rattle.shared_parts.specs.HostedApps.{HostedEvent, no_event};

    ghost Value = { HostedEvent V A };

    ghost coded = { Prim.hlevel (codes, coded_store) };

    ghost view = { λ e. no_event };
}

impl<V: Volume, A: Application> Parted for HostedApp<V, A> {
    type Part = SeenClient;

    type Entry = SeenEvent<V, A>;

    ghost use Rattle.shared_parts.specs.HostedApps.{parts_for, trail_with};

    ghost parts_of = { λ h. parts_for h.log 0 h.misses };

    ghost trail_of = { λ h. trail_with h.origin h.log };

    fn parts(&self) -> u32 {
        let _misses = &self.misses;
        CLIENTS as u32
    }
}
