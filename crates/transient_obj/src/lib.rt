//! Keys in memory: transient objects with a kind, a greatest size, a usage and a secret. No call takes memory.
#![tactic(auto)]

mod answer;
mod look;
mod object_key;
#[cfg(test)]
mod tests;
mod transient;

pub use answer::KeyAnswer;
pub use look::KeyLook;
pub use object_key::ObjectKey;
pub use secret::{Secret, size_fits};
pub use transient::Transient;
