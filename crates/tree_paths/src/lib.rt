//! The places of a tree of sealed blocks, and how what stands at them is read and verified.
#![tactic(auto)]

pub mod first_version;
mod laws;
mod layout;
mod load_place;
mod nodes;
pub mod places;
mod walk;
mod way;

pub use laws::{shape_laws, tree_laws};
pub use layout::{First, Layout, Written};
pub use load_place::{find_entry, find_leaf, load, load_node};
pub use nodes::Nodes;
pub use walk::{VerifyAnswer, check};
pub use way::{Passed, Way};
