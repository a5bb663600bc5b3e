//! Which handles on one persistent object may be open side by side (TEE Internal Core API 1.3, section 5.7.3).
#![tactic(auto)]

mod group;
mod index;
#[cfg(test)]
mod tests;
mod uses;

pub use index::{Share, ShareIndex};
