//! The header of a volume, its two slots with their gates, and the rule by which a board is opened.
//!
//! No call takes memory.
#![tactic(auto)]

mod answer;
mod bytes;
mod commits;
mod copies;
mod find;
mod format;
mod gates;
mod header;
mod last;
mod laws;
mod laying;
mod mounting;
mod mounts;
mod rule;
mod slots;
mod steps;
mod taking;

pub use answer::{OpenAnswer, Unopened};
pub use commits::{Change, commit};
pub use copies::{named_copy, other_copy};
pub use find::find_header;
pub use format::Format;
pub use header::{Header, TreeEntry, entry_at, entry_bytes};
pub use last::{exhaust, is_failed};
pub use laws::opening_laws;
pub use laying::lay;
pub use mounting::{mount, mount_after_power, mount_again};
pub use mounts::{BLANK, BoardVolume, FORMATTED};
pub use steps::{flip, shut};
pub use taking::{NO_ROOT, Reopened, reopened_from};
