//! Applications that threads share: passes, and the calls that clients make with them, each answer one entry of one legal log. At
//! the end the logs are given.
//!
//! Each application has a cell of its own, and the storage has one. A call of an application holds its cell, and only a turn in
//! whose instance an ask waits that may need the storage takes the storage's cell too.
#![tactic(auto)]

mod beginning;
mod calls;
mod dealing;
mod ending;
mod gate;
mod looking;
mod making;
mod names;
mod opening;
mod pass;
mod pausing;
mod shared;
mod turning;

pub use gate::{Gate, OpenGate};
pub use names::STORAGE_CELL;
pub use opening::SharedTee;
pub use pass::Pass;
pub use shared::SharedTeeOver;
