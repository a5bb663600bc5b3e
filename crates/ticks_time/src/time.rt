//! Points of time, and why there is none.

use thiserror::Error;

/// How many milliseconds a second has.
pub const MILLIS: u32 = 1_000;

/// The number of ticks of a wait that has no end (TEE Internal Core API 1.3, section 7.1).
pub const FOREVER: u32 = 0xFFFF_FFFF;

/// A point of time, or a length of it (TEE Internal Core API 1.3, section 3.5.1): whole seconds, and the milliseconds
/// beside them, of which there are fewer than 1,000.
#[derive(Clone, Copy, Debug, PartialEq, Eq)]
pub struct Time {
    pub seconds: u32,
    pub millis: u32,
}

/// Why there is no time to tell. Each answer changes nothing.
#[derive(Clone, Copy, Debug, PartialEq, Eq, Error)]
pub enum TimeAnswer {
    /// The application has never set its time.
    #[error("time was never set")]
    NotSet,
    /// The application has set its time, but not since the last restart.
    #[error("time was lost at a restart")]
    NeedsReset,
    /// The seconds pass 32 bits.
    #[error("time passes its range")]
    Overflow,
}
