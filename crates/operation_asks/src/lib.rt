//! What comes of asks about operations and random bytes, over the operations of one application and its random stream.
#![tactic(auto)]

mod crypto;
mod one;
mod operations;
mod outcome;
mod past;
mod table;

pub use operations::Operations;
pub use outcome::{CryptoOutcome, Outcome};
