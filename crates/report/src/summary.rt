//! The summary of a run.

ghost use Rattle.std.specs.Prelude.{◌≡◌, IfOk};
ghost use Rattle.report.specs.Texts.{summary_text};

use crate::line::LineBuffer;
use std::alloc::Global;
use std::collections::BTreeMap;
use tee_base::{Bytes, Code, NoMemory};

impl LineBuffer {
    ghost use Rattle.std.specs.Prelude.{◌≡◌, ◌++◌, OnOk};
    ghost use Rattle.std.specs.List.{flat_map};
    ghost use Rattle.report.specs.Texts.{count_text};

    /// The line of a code and how often it comes.
    fn count(&mut self, code: u32, count: u64) -> Result<(), NoMemory>
        ensures { OnOk result (self.new ≡ self.old ++ count_text (code, count)) }
    {
        self.text(b"code ")?;
        self.code(Code(code))?;
        self.text(b" ")?;
        self.number(count)?;
        self.text(b"\n")
    }

    /// The lines of all codes.
    fn counts(&mut self, counts: &BTreeMap<u32, u64>) -> Result<(), NoMemory>
        ensures { OnOk result (self.new ≡ self.old ++ flat_map count_text counts.now.entries) }
    {
        for (code, count) in counts {
            self.count(*code, *count)?;
        }
        Ok(())
    }
}

/// The lines of a summary: `lines LINES`, `script HEX` and `replies HEX` with these hashes, and a line `code CODE COUNT` for each
/// code, the least first, the code in eight hexadecimal digits. Each ends with a line feed.
pub fn summary_lines(
    alloc: Global,
    lines: u64,
    script: &[u8],
    replies: &[u8],
    counts: &BTreeMap<u32, u64>,
) -> Result<Bytes, NoMemory>
    ensures { IfOk result (λ text. text
        ≡ summary_text lines script.now replies.now counts.now.entries) }
{
    let mut text = LineBuffer::new(alloc);
    text.text(b"lines ")?;
    text.number(lines)?;
    text.text(b"\nscript ")?;
    text.hex(script)?;
    text.text(b"\nreplies ")?;
    text.hex(replies)?;
    text.text(b"\n")?;
    text.counts(counts)?;
    Ok(text.into_bytes())
}
