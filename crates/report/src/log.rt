//! The log of one application.

ghost use Rattle.std.specs.Prelude.{◌≡◌, ◌+◌, ◌<◌, ◌^◌, IfOk, drop, if◌then◌else◌, take};
ghost use Rattle.alone.specs.KeptLogs.{event_by};
ghost use Rattle.report.specs.LogTexts.{is_call, log_text};

use crate::line::LineBuffer;
use alone::{AppLog, LogEntry, LogEvent, Reply};
use script::call_text;
use std::alloc::Global;
use tee_base::{Bytes, NoMemory};

/// The number of the operation of the next call behind the entry, where `op` is that before it.
fn op_after(op: u64, entry: &LogEntry) -> u64
    requires { op + 1 < 2 ^ 64 }
    ensures { let event = event_by entry.now.client entry.now.event in
        result ≡ op + (if is_call event then 1 else 0) }
{
    match &entry.event {
        LogEvent::Call(_) => op + 1,
        _ => op,
    }
}

/// So many replies from the front, or all where there are fewer, and the others.
fn split(replies: &[Reply], count: u8) -> (&[Reply], &[Reply])
    ensures first { result.0.now ≡ take count replies.now }
    ensures others { result.1.now ≡ drop count replies.now }
{
    let count = usize::from(count).min(replies.len());
    (&replies[..count], &replies[count..])
}

impl LineBuffer {
    ghost use Rattle.std.specs.Prelude.{◌≡◌, ◌++◌, OnOk};
    ghost use Rattle.std.specs.Fmt.{decimal};
    ghost use Rattle.std.specs.List.{flat_map};
    ghost use Rattle.alone.specs.KeptLogs.{event_by};
    ghost use Rattle.report.specs.LogTexts.{entry_line, event_text};
    ghost use Rattle.report.specs.Texts.{reply_text};

    /// The event of an entry in words. The operation of a call has the number `op`.
    fn event(&mut self, alloc: Global, op: u64, entry: &LogEntry) -> Result<(), NoMemory>
        ensures { let event = event_by entry.now.client entry.now.event in
            OnOk result (self.new ≡ self.old ++ event_text op event) }
    {
        match &entry.event {
            LogEvent::Call(call) => {
                self.numbered(b"call ", op)?;
                let words = call_text(alloc, call)?;
                self.text(words.as_slice())
            }
            LogEvent::Cancel(wanted) => self.numbered(b"cancel ", *wanted),
            LogEvent::Turn(instance) => self.numbered(b"turn ", u64::from(*instance)),
            LogEvent::TurnLost(instance) => self.numbered(b"lost-turn ", u64::from(*instance)),
            LogEvent::Corrupted(instance) => self.numbered(b"corrupt ", u64::from(*instance)),
            LogEvent::Lost => self.text(b"lost"),
            LogEvent::Starve(instance) => self.numbered(b"starve ", u64::from(*instance)),
        }
    }

    /// The line of the entry at this place.
    fn entry_line(
        &mut self,
        alloc: Global,
        name: &[u8],
        place: u64,
        op: u64,
        entry: &LogEntry,
    ) -> Result<(), NoMemory>
        ensures { let event = event_by entry.now.client entry.now.event in
            OnOk result (self.new
            ≡ self.old ++ entry_line name.now place op entry.now.client event) }
    {
        self.text(name)?;
        self.numbered(b" log ", place)?;
        self.numbered(b" c", u64::from(entry.client))?;
        self.text(b" ")?;
        self.event(alloc, op, entry)?;
        self.text(b"\n")
    }

    /// The lines of replies.
    fn replies(&mut self, name: &[u8], replies: &[Reply]) -> Result<(), NoMemory>
        ensures { OnOk result (self.new
            ≡ self.old ++ flat_map (reply_text name.now) replies.now) }
    {
        for reply in replies {
            self.reply(name, reply)?;
        }
        Ok(())
    }
}

/// The text of the log of the application of this name. Entry K, counted from 1, has the line `NAME log K cC EVENT`, with its client
/// C, and then the line of each of its replies. EVENT is `call OP` and the canonical words of the call, `turn I`, `lost-turn I`,
/// `corrupt I`, `lost`, `starve I` or `cancel OP`.
pub fn log_lines(alloc: Global, name: &[u8], log: &AppLog) -> Result<Bytes, NoMemory>
    ensures { IfOk result (λ bytes. bytes ≡ log_text name.now log.now.entries) }
{
    let (entries, replies) = log.parts();
    let mut text = LineBuffer::new(alloc);
    let mut place = 0;
    let mut op = 1;
    let mut left = replies;
    for entry in entries {
        place += 1;
        text.entry_line(alloc, name, place, op, entry)?;
        let (own, others) = split(left, entry.replies);
        text.replies(name, own)?;
        left = others;
        op = op_after(op, entry);
    }
    Ok(text.into_bytes())
}
