//! How a turn went.

/// What the store had to do with a turn.
#[derive(Clone, Copy, Debug, PartialEq, Eq)]
pub enum TurnKind {
    /// It served what was asked of it, or answered that it is lost.
    Plain,
    /// A call of it failed, and it is lost from now on. `change` says whether a change of it is in doubt.
    Lost { change: bool },
    /// What it read is damaged.
    Corrupted,
}
