//! The objects of one region of a volume: which leaves hold them, and how they are read.
#![tactic(auto)]

mod after;
mod bytes;
mod calls;
mod chain;
mod change;
mod check;
mod data;
mod directory;
mod edit;
mod entry;
mod form;
mod inode;
mod inodes;
mod laws;
mod place;
mod planning;
mod source;
mod table;

pub use bytes::{all_zero, number_at};
pub use calls::{facts, locate, next_after, secret};
pub use change::plan;
pub use data::content;
pub use directory::Directory;
pub use edit::blocks;
pub use entry::{Entry, has_form};
pub use form::Form;
pub use inode::is_inode_leaf;
pub use laws::region_laws;
pub use planning::cost;
pub use source::{LeafSource, read};
