//! Why a text was cut short.

/// Why a sink took no more.
#[derive(Clone, Copy, Debug, PartialEq, Eq)]
pub enum Cut {
    /// A line says that a turn lost the storage.
    Lost,
    /// Another line about the board came: a turn was starved or damaged, or the power was lost.
    Board,
    NoMemory,
}
