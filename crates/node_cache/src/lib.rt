//! Nodes of a tree that were verified, each kept under its place and its tag.
//!
//! A place has at most one node. Where all room is taken, the node that wasn't used for longest goes.
#![tactic(auto)]

mod cache;
#[cfg(test)]
mod tests;

pub use cache::{Kept, NodeCache};
