//! An application whose seat of the storage's cell is out.

ghost use Rattle.std.specs.Prelude.{◌≡◌};
ghost use Rattle.turn_cell.specs.Words.{IsFree, cell_id_of, view as known};
ghost use Rattle.turn_cell.specs.declared.view.SeatView.{SeatView};
ghost use Rattle.shared_parts.specs.InStep.{StoragePart};
ghost use Rattle.shared_parts.specs.Seating.{FitsSeat, LearnsMore, seated_view};
ghost use Rattle.shared_parts.specs.StorageParts.{StorageEntry};

use crate::hosted::{CLIENTS, HostedApp};
use crate::missed::Missed;
use crate::recorded::Recorded;
use crate::storage::Storage;
use app_api::Application;
use app_side::AppSide;
use std::alloc::Global;
use std::snapshot::Snapshot;
use store_api::Volume;
use turn_cell::CellSeat;

/// An application beside its log, without its seat of the storage's cell. Its caller has that seat meanwhile.
#[derive(Drop)]
pub struct UnseatedApp<A> {
    pub(crate) alloc: Global,
    pub(crate) app: u8,
    pub(crate) recorded: Box<Recorded<A>>,
    pub(crate) start: Snapshot<AppSide<A>>,
    pub(crate) misses: [Missed; CLIENTS],
}

impl<V: Volume, A: Application> HostedApp<V, A> {
    /// Takes its seat of the storage's cell out.
    pub fn unseat(self) -> (UnseatedApp<A>, CellSeat<Storage<V, A>>)
        ensures cell { cell_id_of result.1 ≡ self.origin.storage }
        ensures free { IsFree result.1 }
        ensures fits { FitsSeat V.keeper A.behaviour result.0 (cell_id_of result.1)
            (known result.1) }
        ensures value { self ≡ seated_view result.0 (cell_id_of result.1) (known result.1) }
    {
        let HostedApp {
            alloc,
            app,
            recorded,
            seat,
            start,
            misses,
        } = self;
        let unseated = UnseatedApp {
            alloc,
            app,
            recorded,
            start,
            misses,
        };
        (unseated, seat)
    }
}

impl<A: Application> UnseatedApp<A> {
    /// Puts the seat back, which may know more of the storage than before. Its part of it has to be as it was.
    pub fn seat<V: Volume>(self, seat: CellSeat<Storage<V, A>>) -> HostedApp<V, A>
        requires { (before : SeatView StoragePart (StorageEntry V))
            × FitsSeat V.keeper A.behaviour self (cell_id_of seat) before
            × LearnsMore before (known seat) }
        ensures { (before : SeatView StoragePart (StorageEntry V))
            → FitsSeat V.keeper A.behaviour self (cell_id_of seat) before
            → LearnsMore before (known seat)
            → result ≡ seated_view self (cell_id_of seat) before }
    {
        let UnseatedApp {
            alloc,
            app,
            recorded,
            start,
            misses,
        } = self;
        HostedApp {
            alloc,
            app,
            recorded,
            seat,
            start,
            misses,
        }
    }
}
