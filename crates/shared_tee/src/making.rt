//! How the runtime is made over a volume that was just opened. What it took is brought back where memory lacks.

ghost use Rattle.std.specs.Prelude.{◌≡◌, ◌<◌, ◌≤◌, ◌+◌, ◌-◌, ◌*◌, ℕ, List, [], ◌∷◌, ◌++◌, false, IfErr, IfOk, OnOk, length, map, vec_capacity};
ghost use Rattle.app_api.specs.Hosts.{HostsFit};
ghost use Rattle.app_api.specs.declared.host.Host.{Host};
ghost use Rattle.app_side.specs.declared.side.AppSide.{AppSide as Side};
ghost use Rattle.tee_base.specs.declared.limits.TheConstants.{MAX_HOSTS};
ghost use Rattle.app_side.specs.Represents.{has_doubt, is_lost, machine_of};
ghost use Rattle.tee_core.specs.Sides.{IsNoneInDoubt};
ghost use Rattle.turn_cell.specs.Words.{IsSeatOf, cell_id, cell_id_of, name_of, original_parts, view as known};
ghost use Rattle.shared_parts.specs.HostedApps.{Origin};
ghost use Rattle.shared_tee.specs.Beginning.{IsRoomFor};
ghost use Rattle.shared_tee.specs.Making.{AreBegun, AreIdle, BeginsOver, BegunCell, ComesBack, ComesBackOpened, IsBegun, IsIdle, all_fresh, opened_seat, origin_over, origins_over};
ghost use Rattle.shared_tee.specs.declared.names.TheConstants.{STORAGE_CELL};

use crate::beginning::Room;
use crate::names::STORAGE_CELL;
use crate::pass::Pass;
use crate::shared::SharedTeeOver;
use app_api::Application;
use app_side::AppSide;
use shared_parts::{HostedApp, Storage, Unstored};
use std::alloc::Global;
use std::collections::VecDeque;
use std::snapshot::Snapshot;
use store_api::Volume;
use turn_cell::{CellSeat, TurnCell, Uncelled};

/// An application's cell, and a seat of it that has the parts of all clients.
pub(crate) type Begun<V, A> = (TurnCell<HostedApp<V, A>>, CellSeat<HostedApp<V, A>>);

/// The cell of an application that has run nothing, by its seat of the storage's cell. Where memory lacks, that seat comes back.
fn begin_one<V: Volume, A: Application>(
    alloc: Global,
    app: u8,
    side: AppSide<A>,
    seat: CellSeat<Storage<V, A>>,
    opened: &Snapshot<V>,
    apps: usize,
) -> Result<Begun<V, A>, CellSeat<Storage<V, A>>>
    requires seat { known seat ≡ opened_seat V.keeper apps opened.now.value app 1 }
    requires index { (machine_of side).index ≡ app }
    requires calm { has_doubt side ≡ false }
    requires works { is_lost side ≡ false }
    ensures ok { IfOk result (λ begun. IsBegun app
        (origin_over V.keeper (cell_id_of seat) apps opened.now.value app side) begun) }
    ensures err { IfErr result (λ back. (cell_id_of back ≡ cell_id_of seat)
        × ComesBack V.keeper apps opened.now.value app 1 (known back)) }
{
    match HostedApp::new(alloc, app, side, seat) {
        Ok(hosted) => {
            match TurnCell::new(alloc, hosted, u32::from(app)) {
                Ok(begun) => Ok(begun),
                Err(Uncelled { value, .. }) => {
                    let (log, seat) = value.into_parts();
                    drop(log);
                    Err(seat)
                }
            }
        }
        Err(seat) => Err(seat),
    }
}

/// The seats of all applications that have begun come back, and join those behind them.
fn undo_all<V: Volume, A: Application>(
    storage: &TurnCell<Storage<V, A>>,
    begun: &mut Vec<Begun<V, A>>,
    behind: CellSeat<Storage<V, A>>,
    opened: &Snapshot<V>,
    apps: usize,
) -> CellSeat<Storage<V, A>>
    requires few { length begun.old.items < apps }
    requires begun { (sides : List (Side A)) × AreBegun 0 (origins_over V.keeper
        (cell_id storage.now) apps opened.now.value 0 sides) begun.old.items }
    requires own { IsSeatOf storage.now behind }
    requires behind { ComesBack V.keeper apps opened.now.value (length begun.old.items)
        (apps - length begun.old.items) (known behind) }
    ensures own { IsSeatOf storage.now result }
    ensures back { ComesBack V.keeper apps opened.now.value 0 apps (known result) }
{
    let mut seat = behind;
    while let Some((cell, all)) = begun.pop() {
        let hosted = cell.close(all);
        hosted.keeps();
        let (log, mut own) = hosted.into_parts();
        drop(log);
        storage.join(&mut own, seat);
        seat = own;
    }
    seat
}

/// The next application begins, and the seat of those behind it is left. Where memory lacks, all that has begun is undone.
fn begin_next<V: Volume, A: Application>(
    alloc: Global,
    side: AppSide<A>,
    storage: &TurnCell<Storage<V, A>>,
    seat: CellSeat<Storage<V, A>>,
    opened: &Snapshot<V>,
    apps: usize,
    begun: &mut Vec<Begun<V, A>>,
) -> Result<CellSeat<Storage<V, A>>, CellSeat<Storage<V, A>>>
    requires more { length begun.old.items + 1 < apps }
    requires few { apps ≤ MAX_HOSTS }
    requires room { length begun.old.items < vec_capacity begun.old }
    requires begun { (sides : List (Side A)) × AreBegun 0 (origins_over V.keeper
        (cell_id storage.now) apps opened.now.value 0 sides) begun.old.items }
    requires own { IsSeatOf storage.now seat }
    requires seat { known seat ≡ opened_seat V.keeper apps opened.now.value
        (length begun.old.items) (apps - length begun.old.items) }
    requires idle { IsIdle (length begun.old.items) side }
    ensures ok { IfOk result (λ rest. IsSeatOf storage.now rest
        × (known rest ≡ opened_seat V.keeper apps opened.now.value
        (length begun.old.items + 1) (apps - (length begun.old.items + 1)))) }
    ensures begun { OnOk result ((one : BegunCell V A)
        × (begun.new.items ≡ begun.old.items ++ one ∷ [])
        × IsBegun (length begun.old.items) (origin_over V.keeper (cell_id storage.now) apps
        opened.now.value (length begun.old.items) side) one) }
    ensures capacity { OnOk result (vec_capacity begun.new ≡ vec_capacity begun.old) }
    ensures err { IfErr result (λ back. IsSeatOf storage.now back
        × ComesBack V.keeper apps opened.now.value 0 apps (known back)) }
{
    let app = begun.len() as u8;
    let mut own = seat;
    let behind = storage.split(&mut own, u32::from(app) + 1);
    match begin_one(alloc, app, side, own, opened, apps) {
        Ok(one) => {
            begun.push_reserved(one);
            Ok(behind)
        }
        Err(back) => {
            let mut back = back;
            storage.join(&mut back, behind);
            Err(undo_all(storage, begun, back, opened, apps))
        }
    }
}

/// The last application begins. Where memory lacks, all that has begun is undone.
fn begin_last<V: Volume, A: Application>(
    alloc: Global,
    side: AppSide<A>,
    storage: &TurnCell<Storage<V, A>>,
    seat: CellSeat<Storage<V, A>>,
    opened: &Snapshot<V>,
    apps: usize,
    begun: &mut Vec<Begun<V, A>>,
) -> Result<(), CellSeat<Storage<V, A>>>
    requires last { length begun.old.items + 1 ≡ apps }
    requires few { apps ≤ MAX_HOSTS }
    requires room { length begun.old.items < vec_capacity begun.old }
    requires begun { (sides : List (Side A)) × AreBegun 0 (origins_over V.keeper
        (cell_id storage.now) apps opened.now.value 0 sides) begun.old.items }
    requires own { IsSeatOf storage.now seat }
    requires seat { known seat ≡ opened_seat V.keeper apps opened.now.value
        (length begun.old.items) 1 }
    requires idle { IsIdle (length begun.old.items) side }
    ensures begun { OnOk result ((one : BegunCell V A)
        × (begun.new.items ≡ begun.old.items ++ one ∷ [])
        × IsBegun (length begun.old.items) (origin_over V.keeper (cell_id storage.now) apps
        opened.now.value (length begun.old.items) side) one) }
    ensures err { IfErr result (λ back. IsSeatOf storage.now back
        × ComesBack V.keeper apps opened.now.value 0 apps (known back)) }
{
    match begin_one(alloc, begun.len() as u8, side, seat, opened, apps) {
        Ok(one) => {
            begun.push_reserved(one);
            Ok(())
        }
        Err(back) => Err(undo_all(storage, begun, back, opened, apps)),
    }
}

/// All applications begin. Where memory lacks, the seat of all parts of the storage comes back.
fn begin_all<V: Volume, A: Application>(
    alloc: Global,
    sides: Vec<AppSide<A>>,
    storage: &TurnCell<Storage<V, A>>,
    seat: CellSeat<Storage<V, A>>,
    opened: &Snapshot<V>,
    begun: &mut Vec<Begun<V, A>>,
) -> Result<(), CellSeat<Storage<V, A>>>
    requires some { 0 < length sides.items }
    requires few { length sides.items ≤ MAX_HOSTS }
    requires none { begun.old.items ≡ [] }
    requires room { length sides.items ≤ vec_capacity begun.old }
    requires own { IsSeatOf storage.now seat }
    requires seat { known seat ≡ opened_seat V.keeper (length sides.items) opened.now.value 0
        (length sides.items) }
    requires idle { AreIdle 0 sides.items }
    ensures ok { OnOk result (AreBegun 0 (origins_over V.keeper (cell_id storage.now)
        (length sides.items) opened.now.value 0 sides.items) begun.new.items) }
    ensures err { IfErr result (λ back. IsSeatOf storage.now back
        × ComesBack V.keeper (length sides.items) opened.now.value 0 (length sides.items)
        (known back)) }
{
    let apps = sides.len();
    let mut rest = VecDeque::from(sides);
    let mut seat = seat;
    for app in 1..apps {
        let Some(side) = rest.pop_front() else {
            unreachable!()
        };
        seat = begin_next(alloc, side, storage, seat, opened, apps, begun)?;
    }
    let Some(side) = rest.pop_front() else {
        unreachable!()
    };
    begin_last(alloc, side, storage, seat, opened, apps, begun)
}

/// The passes of all applications that have begun, and their cells.
fn deal_all<V: Volume, A: Application>(
    begun: Vec<Begun<V, A>>,
    cells: &mut Vec<TurnCell<HostedApp<V, A>>>,
    passes: &mut Vec<Pass<V, A>>,
)
    requires few { length begun.items ≤ MAX_HOSTS }
    requires begun { (origins : List (Origin V A)) × AreBegun 0 origins begun.items }
    requires cells { (cells.old.items ≡ []) × (length begun.items ≤ vec_capacity cells.old) }
    requires passes { (passes.old.items ≡ [])
        × (8 * length begun.items ≤ vec_capacity passes.old) }
    ensures cells { cells.new.items ≡ map (λ b. b.0) begun.items }
    ensures passes { (origins : List (Origin V A)) → AreBegun 0 origins begun.items
        → passes.new.items ≡ all_fresh 0 (map (λ b. cell_id b.0) begun.items) origins }
{
    let mut rest = VecDeque::from(begun);
    while let Some((cell, seat)) = rest.pop_front() {
        Pass::deal(&cell, cells.len() as u8, seat, passes);
        cells.push_reserved(cell);
    }
}

/// The storage's cell over a volume that was just opened, with its first seat. Where memory lacks, the volume comes back.
fn begin_storage<V: Volume, A: Application>(
    alloc: Global,
    volume: V,
    sides: &[AppSide<A>],
) -> Result<(TurnCell<Storage<V, A>>, CellSeat<Storage<V, A>>), V>
    requires some { 0 < length sides.now }
    requires few { length sides.now ≤ MAX_HOSTS }
    requires works { (V.keeper.condition volume).lost ≡ false }
    requires calm { IsNoneInDoubt sides.now }
    ensures name { IfOk result (λ made. name_of made.0 ≡ STORAGE_CELL) }
    ensures parts { IfOk result (λ made.
        length (original_parts (λ s. s.parts) made.0) ≡ length sides.now) }
    ensures own { IfOk result (λ made. IsSeatOf made.0 made.1) }
    ensures seat { IfOk result (λ made. known made.1
        ≡ opened_seat V.keeper (length sides.now) volume 0 (length sides.now)) }
    ensures err { IfErr result (λ back. back ≡ volume) }
{
    let storage = match Storage::new(alloc, volume, sides) {
        Ok(storage) => storage,
        Err(Unstored { volume, .. }) => return Err(volume),
    };
    match TurnCell::new(alloc, storage, STORAGE_CELL) {
        Ok(made) => Ok(made),
        Err(Uncelled { value, .. }) => Err(value.into_volume()),
    }
}

/// The runtime over a volume that was just opened, and its passes. Where memory lacks, the volume comes back.
pub(crate) fn begin_over<V: Volume, A: Application>(
    alloc: Global,
    volume: V,
    room: Room<V, A>,
) -> Result<(SharedTeeOver<V, A>, Vec<Pass<V, A>>), V>
    requires room { (hosts : List (Host A)) × (seed : List ℕ) × HostsFit hosts
        × IsRoomFor hosts seed room }
    requires works { (V.keeper.condition volume).lost ≡ false }
    ensures ok { (hosts : List (Host A)) (seed : List ℕ) → HostsFit hosts
        → IsRoomFor hosts seed room → IfOk result (λ made.
        BeginsOver V.keeper hosts seed made.0 made.1.items volume) }
    ensures err { IfErr result (λ back.
        ComesBackOpened V.keeper A (length room.sides.items) volume back) }
{
    let Room {
        sides,
        mut begun,
        mut cells,
        mut passes,
        logs,
    } = room;
    let opened = Snapshot::of(&volume);
    let (storage, seat) = begin_storage(alloc, volume, sides.as_slice())?;
    match begin_all(alloc, sides, &storage, seat, &opened, &mut begun) {
        Ok(()) => {
            deal_all(begun, &mut cells, &mut passes);
            let tee = SharedTeeOver {
                alloc,
                cells,
                storage,
                logs,
            };
            Ok((tee, passes))
        }
        Err(seat) => {
            let storage = storage.close(seat);
            storage.keeps();
            Err(storage.into_volume())
        }
    }
}
