//! How the tests write a log.

ghost use Rattle.std.specs.Prelude.{◌≡◌, ◌++◌, [], ◌∷◌, OnErr, OnOk};
ghost use Rattle.alone.specs.KeptLogs.{event_by};
ghost use Rattle.alone.specs.Logs.{entry};

use alone::{AppLog, LogEvent, Replies};
use tee_base::{NoMemory, limits};

/// Adds an entry of this client with its replies at the end, where the log has a place for it and there is memory. Else the log stays,
/// and the answer is NoMemory.
pub fn add(
    log: &mut AppLog,
    client: u8,
    event: LogEvent,
    mut replies: Replies,
) -> Result<(), NoMemory>
    ensures added { OnOk result (log.new.entries
        ≡ log.old.entries ++ entry client (event_by client event) replies ∷ []) }
    ensures unchanged { OnErr result (log.new.entries ≡ log.old.entries) }
{
    let bytes = event.bytes();
    if bytes > u128::from(limits::MAX_LOG_BYTES) || log.is_full(bytes) {
        return Err(NoMemory);
    }
    log.reserve(1, replies.len())?;
    log.push(client, event, &mut replies);
    Ok(())
}
