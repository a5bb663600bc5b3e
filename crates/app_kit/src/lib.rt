//! What applications have in common: a reaction with its state and its ask, outputs at their places, and bytes of parameters.
#![tactic(auto)]

mod parameters;
mod reaction;

pub use parameters::take_bytes;
pub use reaction::{Reaction, at_p0, at_p1, at_p2, at_p3};
