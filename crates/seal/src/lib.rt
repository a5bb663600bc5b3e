//! Blocks sealed under the keys of a board: encrypted, with a tag of their place, the commit that wrote them and their
//! bytes.
//!
//! No call takes memory.
#![tactic(auto)]

mod codes;
mod keys;
mod leaf;

pub use keys::{Keys, tag_of};
pub use leaf::{Tags, open_leaf, seal_leaf};
