//! An application beside its log.

ghost use Rattle.std.specs.Prelude.{◌≡◌, []};

use alone::{AppLog, Replies};
use app_side::AppSide;
use thiserror::Error;
use turn_cell::Busy;

/// A running application, and the log of what happened to it. Each of its calls keeps them in step; whoever changes one of them
/// by itself has to do the same.
#[derive(Drop)]
pub struct Recorded<A> {
    pub side: AppSide<A>,
    pub log: AppLog,
    /// A table for the replies of one event, so that not each event needs a new one.
    pub(crate) replies: Replies,
}

/// Leaves no reply in a table.
pub(crate) fn clear(replies: &mut Replies)
    ensures { replies.new ≡ [] }
{
    if !replies.is_empty() {
        *replies = Replies::none();
    }
}

/// What is told of a call: the number of its operation, and the instance for which it waits, 0 where it is answered already.
#[derive(Clone, Copy, Debug, PartialEq, Eq)]
pub struct Posted {
    pub op: u64,
    pub instance: u8,
}

/// Why a call isn't made. It changes no entry, no application and no store then.
#[derive(Clone, Copy, Debug, PartialEq, Eq, Error)]
pub enum SharedAnswer {
    /// The application's cell or the storage's was taken, as one try found.
    #[error("cell {} is taken", .0.cell)]
    Busy(Busy),
    /// The log holds as many entries or bytes as it may.
    #[error("the log is full")]
    LogFull,
    /// There was no memory.
    #[error("out of memory")]
    NoMemory,
}
