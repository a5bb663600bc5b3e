//! Blocks of memory that clients share with one application, and the references of calls to them.
#![tactic(auto)]

mod answer;
mod block;
mod blocks;
mod laws;
mod lists;

pub use answer::BlockAnswer;
pub use app_api::{Direction, Reference};
pub use block::Block;
pub use blocks::{Blocks, MAX_BLOCKS};
pub use laws::{block_laws, delivery_laws, references_are_memory};
