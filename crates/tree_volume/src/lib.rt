//! A volume whose entries stand in a tree of nodes, on any board.
#![tactic(auto)]

mod opening;
mod verify;
mod volume;

pub use tree_paths::VerifyAnswer;
pub use volume::TreeVolume;
