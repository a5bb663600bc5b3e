//! Two boards: one in memory, which is honest, and one over files.
#![tactic(auto)]

mod block_list;
mod copy;
mod counter;
mod counts;
mod disk;
mod failed;
mod file;
mod files;
mod made;
mod memory;
mod offer_log;
mod orders;
mod past;
mod pending;
mod room;
mod row;
mod schedule;

pub use copy::copy_of_files;
pub use failed::{BoardFile, FileBoardFailed, FileFailure, FileFault};
pub use file::FileBoard;
pub use files::NEW_BLOCKS;
pub use memory::MemBoard;
