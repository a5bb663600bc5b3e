//! The objects of one region of a volume, as a store.
#![tactic(auto)]

mod changing;
mod directory;
mod kept;
mod kept_dir;
mod planned;
mod region;

pub use directory::ObjectDir;
pub use kept::Kept;
pub use kept_dir::KeptDir;
pub use region::{IN_USE, Region};
