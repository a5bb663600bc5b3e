//! What a commit of a tree touches, and how that is gathered and written.
#![tactic(auto)]

mod change;
mod gathering;
mod touched;
mod write;

pub use change::TreeChange;
pub use gathering::gather;
pub use touched::{Node, Touched};
pub use write::{write_all, write_node};
