//! Secrets of keys, in place, and which sizes of them fit which kind of key. No call takes memory.
#![tactic(auto)]

mod secret;
mod sizes;
#[cfg(test)]
mod tests;

pub use secret::Secret;
pub use sizes::{exceeds, size_fits};
