//! How often a client's turns found the storage taken.

/// How many of a client's turns found the storage's cell taken, and the word that the last of them found there.
#[derive(Clone, Copy, Debug, PartialEq, Eq)]
pub struct Missed {
    pub count: u64,
    pub word: u64,
}
