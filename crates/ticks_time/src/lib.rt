//! A clock of ticks, each a millisecond: deadlines, the system's time, and the time that an application sets. No call takes
//! memory.
#![tactic(auto)]

mod clock;
mod laws;
mod time;

pub use clock::{Clock, OwnTime};
pub use laws::clock_laws;
pub use time::{FOREVER, MILLIS, Time, TimeAnswer};
