//! Client operations of one application: what waits, what runs, and what was cancelled.
#![tactic(auto)]

mod operation;
mod queue;
mod scans;

pub use operation::{Begun, Cancelled, OpFacts, Operation, Progress, QueueAnswer};
pub use queue::OpQueue;
