//! What is written of a race: the log of each host.

ghost use Rattle.std.specs.Prelude.{◌≡◌, length};
ghost use Rattle.race.specs.Races.{entries_of};
ghost use Rattle.run_board.specs.Writing.{Writes};
ghost use Rattle.tee_top.specs.Races.{logs_text};

use alone::AppLog;
use report::log_lines;
use run_board::{Stop, write_bytes};
use std::alloc::Global;
use tee_base::{Bytes, Sink};

/// Writes the log of each host, in order, each under its host's name.
pub fn write_logs<W: Sink>(
    alloc: Global,
    names: &[Bytes],
    logs: &[AppLog],
    sink: &mut W,
) -> Result<(), Stop>
    requires { length logs.now ≡ length names.now }
    ensures { Writes W.Sink (logs_text names.now (entries_of logs.now)) result sink.old sink.new }
{
    for (name, log) in names.iter().zip(logs) {
        let text = log_lines(alloc, name.as_slice(), log)?;
        write_bytes(sink, text.as_slice())?;
    }
    Ok(())
}
