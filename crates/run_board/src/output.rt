//! What is written of a run: of what happened in an event, and of a loss of power.

ghost use Rattle.std.specs.Prelude.{◌≡◌};
ghost use Rattle.run_board.specs.Transcript.{happened_lines, owner_name, power_line as power_text_of, replies_text};
ghost use Rattle.run_board.specs.Writing.{Writes};

use crate::lines::Stop;
use alone::{Power, Reply};
use report::{happened_line, power_line, reply_line};
use std::alloc::Global;
use tee_base::{Bytes, Sink, WriteFault, write_all};
use tee_core::Happened;

/// Writes bytes.
pub fn write_bytes<W: Sink>(sink: &mut W, bytes: &[u8]) -> Result<(), Stop>
    ensures { Writes W.Sink bytes.now result sink.old sink.new }
{
    match write_all(sink, bytes) {
        Ok(()) => Ok(()),
        Err(WriteFault) => Err(Stop::WriteFault),
    }
}

/// Writes the lines of these replies.
fn write_replies<W: Sink>(
    alloc: Global,
    name: &[u8],
    replies: &[Reply],
    sink: &mut W,
) -> Result<(), Stop>
    ensures { Writes W.Sink (replies_text name.now replies.now) result sink.old sink.new }
{
    for reply in replies {
        let line = reply_line(alloc, name, reply)?;
        write_bytes(sink, line.as_slice())?;
    }
    Ok(())
}

/// Writes what happened: that the turn was lost, damaged or starved, where it was, and then the lines of the replies.
pub fn write_happened<W: Sink>(
    alloc: Global,
    name: &[u8],
    happened: &Happened,
    sink: &mut W,
) -> Result<(), Stop>
    ensures { Writes W.Sink (happened_lines name.now happened.now) result sink.old sink.new }
{
    let mark = happened_line(alloc, name, happened.kind, happened.turn)?;
    write_bytes(sink, mark.as_slice())?;
    write_replies(alloc, name, happened.replies.as_slice(), sink)
}

/// The name of the application whose change was in doubt; none where none was.
fn owner_name(names: &[Bytes], told: Power) -> &[u8]
    ensures { result.now ≡ owner_name names.now told }
{
    match told {
        Power::Clean => &[],
        Power::Kept(owner) | Power::Absent(owner) => match names.get(owner as usize) {
            Some(name) => name.as_slice(),
            None => &[],
        },
    }
}

/// Writes the line of a loss of power.
pub fn write_power<W: Sink>(
    alloc: Global,
    names: &[Bytes],
    told: Power,
    sink: &mut W,
) -> Result<(), Stop>
    ensures { Writes W.Sink (power_text_of names.now told) result sink.old sink.new }
{
    let line = power_line(alloc, owner_name(names, told), told)?;
    write_bytes(sink, line.as_slice())
}
