//! How the runtime ends: the passes bring their parts back, and the logs and the board are given.

ghost use Rattle.std.specs.Prelude.{◌≡◌, ◌<◌, ◌≤◌, ℕ, List, [], Some, drop, length, slice_get, vec_capacity};
ghost use Rattle.turn_cell.specs.Words.{IsSeatOf, cell_id, cell_id_of, view as known};
ghost use Rattle.shared_parts.specs.HostedApps.{HostedView};
ghost use Rattle.shared_tee.specs.Ending.{AreNext, ArePasses, Ends, EndsFor, EndsOn, HaveEnded};
ghost use Rattle.shared_tee.specs.Passes.{IsPass, PassView};
ghost use Rattle.shared_tee.specs.Shared.{HasEightParts, HaveEightParts, places_of};

use crate::pass::Pass;
use crate::shared::SharedTeeOver;
use alone::AppLog;
use app_api::Application;
use board::Board;
use epoch::BoardVolume;
use shared_parts::{CLIENTS, HostedApp, Storage};
use std::collections::VecDeque;
use store_api::Volume;
use turn_cell::{CellSeat, TurnCell};

/// The seat of the next pass.
fn next_seat<V: Volume, A: Application>(
    passes: &mut VecDeque<Pass<V, A>>,
) -> CellSeat<HostedApp<V, A>>
    requires some { (p : PassView V A) × (slice_get passes.old.items 0 ≡ Some p) }
    ensures seat { (p : PassView V A) → slice_get passes.old.items 0 ≡ Some p
        → (cell_id_of result ≡ p.cell) × (known result ≡ p.seat) × IsPass V.keeper A.behaviour p }
    ensures rest { passes.new.items ≡ drop 1 passes.old.items }
{
    let Some(pass) = passes.pop_front() else {
        unreachable!()
    };
    pass.keeps();
    let Pass { seat, .. } = pass;
    seat
}

/// The application of a cell, to which the next eight passes bring its clients' parts back.
fn close_cell<V: Volume, A: Application>(
    cell: TurnCell<HostedApp<V, A>>,
    passes: &mut VecDeque<Pass<V, A>>,
) -> HostedApp<V, A>
    requires eight { HasEightParts cell }
    requires next { AreNext (cell_id cell) passes.old.items }
    ensures each { (i : ℕ) (p : PassView V A) → i < 8 → slice_get passes.old.items i ≡ Some p
        → EndsFor V.keeper A.behaviour result.origin.opened p result }
    ensures rest { passes.new.items ≡ drop 8 passes.old.items }
{
    let mut seat = next_seat(passes);
    for client in 1..CLIENTS {
        let other = next_seat(passes);
        cell.join(&mut seat, other);
    }
    let hosted = cell.close(seat);
    hosted.keeps();
    hosted
}

/// The logs of all applications, and a seat of the storage's cell that has all of its parts.
fn close_all<V: Volume, A: Application>(
    cells: Vec<TurnCell<HostedApp<V, A>>>,
    passes: Vec<Pass<V, A>>,
    storage: &TurnCell<Storage<V, A>>,
    logs: &mut Vec<AppLog>,
) -> CellSeat<Storage<V, A>>
    requires some { 0 < length cells.items }
    requires eight { HaveEightParts cells.items }
    requires passes { ArePasses (places_of cells.items storage.now) passes.items }
    requires none { logs.old.items ≡ [] }
    requires room { length cells.items ≤ vec_capacity logs.old }
    ensures own { IsSeatOf storage.now result }
    ensures ended { (ends : List (HostedView V A)) × (length ends ≡ length cells.items)
        × HaveEnded V.keeper A.behaviour passes.items ends logs.new.items (known result) }
{
    let mut cells = VecDeque::from(cells);
    let mut passes = VecDeque::from(passes);
    let Some(first) = cells.pop_front() else {
        unreachable!()
    };
    let (log, mut seat) = close_cell(first, &mut passes).into_parts();
    logs.push_reserved(log);
    while let Some(cell) = cells.pop_front() {
        let (log, other) = close_cell(cell, &mut passes).into_parts();
        logs.push_reserved(log);
        storage.join(&mut seat, other);
    }
    seat
}

impl<V: Volume, A: Application> SharedTeeOver<V, A> {
    /// The log of each application, in the order of the hosts, and the volume.
    fn into_logs(self, passes: Vec<Pass<V, A>>) -> (Vec<AppLog>, V)
        requires { ArePasses self passes.items }
        ensures { Ends V.keeper A.behaviour (length self.cells) passes.items result.0.items
            result.1 }
    {
        let SharedTeeOver {
            cells,
            storage,
            mut logs,
            ..
        } = self;
        let seat = close_all(cells, passes, &storage, &mut logs);
        let storage = storage.close(seat);
        storage.keeps();
        let volume = storage.into_volume();
        // Its count of faults is one of 64 bits.
        let _faults = volume.faults();
        (logs, volume)
    }

    /// The log of each application, in the order of the hosts, and the board. The passes are all that the runtime began with,
    /// in the order in which it gave them. It takes no memory.
    pub fn finish<B: Board>(self, passes: Vec<Pass<V, A>>) -> (Vec<AppLog>, B)
    where
        V: BoardVolume<B>,
        requires { ArePasses self passes.items }
        ensures { EndsOn V.keeper A.behaviour V.form B.honest B.view V.board_of
            (length self.cells) passes.items result.0.items result.1 }
    {
        let (logs, volume) = self.into_logs(passes);
        (logs, volume.into_board())
    }
}
