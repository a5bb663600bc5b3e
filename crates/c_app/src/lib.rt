//! Applications that are programs: an image that the processor of RV32I runs over a flat memory, whose calls are the asks of an application.
#![tactic(auto)]

mod answering;
mod app;
mod asking;
mod entering;
mod laws;
mod outputs;
mod places;
pub mod registers;
mod room;
mod slots;

pub use app::{BUDGET, CApp, MAX_MEMORY_BYTES, Phase, TooMuchMemory};
pub use entering::Layout;
pub use laws::{asks_are_said, memory_keeps_its_size, mistakes_panic, outputs_fit};
pub use slots::{Slot, Slots};
