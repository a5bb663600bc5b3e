//! What no script reaches: entries that fail, cancellation as an entry begins, and what ends an application's instances from
//! outside.
#![tactic(auto)]

#[cfg(test)]
mod blocks;
pub mod player;
#[cfg(test)]
mod rows;
#[cfg(test)]
mod tables;
