//! One value that seats take by turns. Each seat owns a range of the value's parts, and the value's trail only grows.
//!
//! Whoever takes the value finds its own parts as it last left them, and a trail that goes on from the one it knew.
//!
//! The value lies in a slot of an `atomic_table`, beside a word. The atomic steps are: take the turn, take the value out of the
//! slot, announce what will be given, put it into the slot, release the turn, split a range, join two ranges, settle their two
//! trails, and look at the word. Nothing is claimed of when a seat is served, or that a waiting one ever is.
#![tactic(auto)]

mod cell;
mod parted;
mod plays;
mod view;

pub use cell::{Busy, CellSeat, NoMemory, RangeSeat, TurnCell, Uncelled};
pub use parted::Parted;
pub use view::{SeatView, Turn};
