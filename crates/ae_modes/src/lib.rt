//! AES-GCM (SP 800-38D) and AES-CMAC (SP 800-38B), as values that are fed in pieces and then start anew.
#![tactic(auto)]

mod answers;
mod blocks;
mod code;
mod ghash;
mod laws;
mod message;
mod operations;
mod start;
mod tables;
mod text;
mod waiting;

pub use answers::{AeAnswer, AeWay};
pub use code::Cmac;
pub use laws::opening_gives_the_message;
pub use message::Gcm;
pub use start::gcm;
