// The cell and its seats.
ghost use Rattle.std.specs.Prelude.{◌≡◌, ◌<◌, length};
ghost use Rattle.turn_cell.specs.View.{hand_of};

mod making;
mod ranges;
mod steps;

use crate::parted::Parted;
use crate::plays::TurnRule;
use crate::view::SeatView;
use atomic_table::{Seat, Table};
use std::alloc::Global;
use std::snapshot::Snapshot;
use std::sync::atomic::AtomicU64;

/// Memory ran out.
#[derive(Clone, Copy, Debug, PartialEq, Eq)]
pub struct NoMemory;

/// There was no memory for a cell. The value comes back.
#[derive(Drop)]
pub struct Uncelled<T> {
    pub value: T,
    pub why: NoMemory,
}

/// The value was out.
#[derive(Clone, Copy, Debug, PartialEq, Eq)]
pub struct Busy {
    /// The name of the cell.
    pub cell: u32,
    /// The word that the try found: the number of the seat that had the value, plus one.
    pub word: u64,
}

/// One value that seats take by turns. The word is 0 where the value is in the cell, or else the number of the seat that has it,
/// plus one; a seat's number is the first part that it owns.
#[derive(Drop)]
pub struct TurnCell<T: Parted> {
    table: Table<Option<T>, SeatView<T::Part, T::Entry>, Snapshot<T>, TurnRule<T>, Global>,
    name: u32,
    /// How many seats are about to sleep, so that nobody is woken where nobody sleeps.
    sleepers: AtomicU64,
    ghost shaped: { (table.shared.table_id.words ≡ 1) × (table.shared.table_id.slots ≡ 1) },
}

/// A seat at a cell whose value has parts of P and a trail of E. It owns a range of the parts, which isn't empty.
///
/// A seat that is dropped while it has the value keeps the turn for good. The type names no bound, so that a generic struct can
/// hold a seat.
#[derive(Drop)]
pub struct RangeSeat<T, P, E> {
    seat: Seat<Option<T>, SeatView<P, E>>,
    number: u32,
    // Its number is its first part.
    ghost numbered: { number ≡ seat.me.0.first },
    ghost some_part: { 0 < length seat.me.0.own },
    // Between calls its hands are empty, or it has the slot with nothing in it.
    ghost hand: { seat.me.1 ≡ hand_of seat.me.0.turn },
}

/// A seat at a cell of T.
pub type CellSeat<T> = RangeSeat<T, <T as Parted>::Part, <T as Parted>::Entry>;

// A seat of the table below.
type TableSeat<T> = Seat<Option<T>, SeatView<<T as Parted>::Part, <T as Parted>::Entry>>;
