//! What a power leaves of a change in doubt.

/// What became of the change in doubt when the board lost power and came back.
#[derive(Clone, Copy, Debug, PartialEq, Eq)]
pub enum Power {
    /// No change was in doubt.
    Clean,
    /// The change of the application of this index is kept.
    Kept(u8),
    /// The change of the application of this index is absent.
    Absent(u8),
}
