//! Cryptographic operations of applications (TEE Internal Core API 1.3, chapter 6), and each application's random stream.
#![tactic(auto)]

mod about;
mod ae;
mod algorithm;
mod answer;
mod cipher;
mod digest;
mod keys;
mod mac;
mod operation;
mod random;
mod sealed;

pub use about::OpAbout;
pub use algorithm::{Algorithm, algorithm_at};
pub use answer::OpAnswer;
pub use operation::Operation;
pub use random::Stream;
pub use sealed::OpSealed;
