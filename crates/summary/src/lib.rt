//! A run in short: the hash of what is written, and how often each code stands in it. The text itself isn't kept.
#![tactic(auto)]

mod codes;
mod cut;
mod laws;
mod sink;
mod told;

pub use codes::Codes;
pub use cut::Cut;
pub use laws::codes_are_read;
pub use sink::Summary;
