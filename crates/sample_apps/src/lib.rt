//! The sample applications, and the hosts that carry them.
#![tactic(auto)]

mod count;
mod crypt;
mod hosts;
mod rogue;
mod sample;
mod store;

pub use count::Count;
pub use crypt::Crypt;
pub use hosts::sample_hosts;
pub use rogue::Rogue;
pub use sample::Sample;
pub use store::Store;
