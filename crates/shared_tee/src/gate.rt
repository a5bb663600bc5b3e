//! The gate before the lines of a race.

/// What stands before each line of each client of a race. A caller makes clients see one another by it.
pub trait Gate: Sync {
    /// The client is about to make this line, counted from 1 among its own lines.
    fn at(&self, client: u8, line: u32);
}

/// A gate that is always open.
#[derive(Clone, Copy, Debug, PartialEq, Eq)]
pub struct OpenGate;

impl Gate for OpenGate {
    fn at(&self, _client: u8, _line: u32) {}
}
