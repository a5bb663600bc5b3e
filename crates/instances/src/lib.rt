//! Instances and sessions of one application: who is admitted, and what ends with an instance. No call takes memory.
#![tactic(auto)]

mod instances;
mod session;
mod tables;

pub use instances::{Admission, Instances, Refusal};
pub use session::{SessionFacts, SessionState};
