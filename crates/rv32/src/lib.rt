//! The RV32I base instruction set (RISC-V Instruction Set Manual, volume I, chapter 2): a machine with 32 registers and one flat memory.
#![tactic(auto)]

mod decoding;
mod fields;
pub mod instruction;
mod laws;
pub mod machine;
pub mod memory;
mod operate;
pub mod register;

pub use decoding::decode;
pub use instruction::{Comparison, Instruction, Operation, Size};
pub use laws::{a_stop_changes_nothing, x0_stays_zero};
pub use machine::{Halt, Machine};
pub use memory::{BASE, Memory};
pub use register::Register;
