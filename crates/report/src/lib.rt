//! Printed lines: replies as clients read them, and what befell the board.
#![tactic(auto)]

ghost use Rattle.std.specs.Prelude.{◌≡◌, ◌++◌, IfOk, codes};
ghost use Rattle.std.specs.Fmt.{decimal};
ghost use Rattle.report.specs.Texts.{happened_text, power_text, reply_text};

mod laws;
mod line;
mod log;
mod summary;

use alone::{Outputs, Power, Reply, Shown, TurnKind};
pub use laws::calls_have_the_numbers_of_operations;
pub use line::LineBuffer;
pub use log::log_lines;
use std::alloc::Global;
pub use summary::summary_lines;
use tee_base::{Bytes, NoMemory};

impl LineBuffer {
    ghost use Rattle.std.specs.Prelude.{◌≡◌, ◌++◌, OnOk};
    ghost use Rattle.report.specs.Texts.{shown_text, outputs_text, reply_text};

    /// What is shown of the parameter of this index.
    fn shown(&mut self, index: u64, shown: &Shown) -> Result<(), NoMemory>
        ensures { OnOk result (self.new ≡ self.old ++ shown_text index shown.now) }
    {
        match shown {
            Shown::Nothing => Ok(()),
            Shown::Value(a, b) => {
                self.parameter(index)?;
                self.number(u64::from(*a))?;
                self.text(b",")?;
                self.number(u64::from(*b))
            }
            Shown::Mem { size, bytes } => {
                self.parameter(index)?;
                self.number(u64::from(*size))?;
                self.text(b":")?;
                self.hex(bytes.as_slice())
            }
            Shown::Size(size) => {
                self.parameter(index)?;
                self.number(u64::from(*size))?;
                self.text(b"!")
            }
        }
    }

    fn outputs(&mut self, outputs: &Outputs) -> Result<(), NoMemory>
        ensures { OnOk result (self.new ≡ self.old ++ outputs_text outputs.now) }
    {
        self.shown(0, &outputs.p0)?;
        self.shown(1, &outputs.p1)?;
        self.shown(2, &outputs.p2)?;
        self.shown(3, &outputs.p3)
    }

    /// Appends the line of a reply.
    fn reply(&mut self, name: &[u8], reply: &Reply) -> Result<(), NoMemory>
        ensures { OnOk result (self.new ≡ self.old ++ reply_text name.now reply.now) }
    {
        self.text(name)?;
        self.numbered(b" ", reply.op)?;
        self.text(b" ")?;
        self.code(reply.code)?;
        self.numbered(b" ", u64::from(reply.origin.number()))?;
        self.outputs(&reply.outputs)?;
        self.text(b"\n")
    }
}

/// The line of a reply: `NAME OP CODE ORIGIN`, the code in eight hexadecimal digits, and then each output as ` pI=A,B`,
/// ` pI=SIZE:HEX` or ` pI=SIZE!`. It ends with a line feed.
pub fn reply_line(alloc: Global, name: &[u8], reply: &Reply) -> Result<Bytes, NoMemory>
    ensures { IfOk result (λ line. line ≡ reply_text name.now reply.now) }
{
    let mut line = LineBuffer::new(alloc);
    line.reply(name, reply)?;
    Ok(line.into_bytes())
}

/// The line of what the board did to a turn: `board WORD NAME T`, of which the front is told up to the name.
fn mark_line(alloc: Global, front: &[u8], name: &[u8], turn: u64) -> Result<Bytes, NoMemory>
    ensures { IfOk result (λ line. line
        ≡ front.now ++ name.now ++ codes " " ++ decimal turn ++ codes "\n") }
{
    let mut line = LineBuffer::new(alloc);
    line.text(front)?;
    line.text(name)?;
    line.text(b" ")?;
    line.number(turn)?;
    line.text(b"\n")?;
    Ok(line.into_bytes())
}

/// The line of a turn of the application of this name, counted from 1: `board lost NAME T` where a call of the store failed in
/// it, `board corrupt NAME T` where it read damage, `board starve NAME T` where there was no memory for it, and no bytes where it is
/// plain.
pub fn happened_line(
    alloc: Global,
    name: &[u8],
    kind: TurnKind,
    turn: u64,
) -> Result<Bytes, NoMemory>
    ensures { IfOk result (λ line. line ≡ happened_text name.now kind turn) }
{
    match kind {
        TurnKind::Plain => Ok(Bytes::empty(alloc)),
        TurnKind::Lost { .. } => mark_line(alloc, b"board lost ", name, turn),
        TurnKind::Starved => mark_line(alloc, b"board starve ", name, turn),
        TurnKind::Corrupted => mark_line(alloc, b"board corrupt ", name, turn),
    }
}

/// A line that ends in a name.
fn named_line(alloc: Global, front: &[u8], name: &[u8]) -> Result<Bytes, NoMemory>
    ensures { IfOk result (λ line. line ≡ front.now ++ name.now ++ codes "\n") }
{
    let mut line = LineBuffer::new(alloc);
    line.text(front)?;
    line.text(name)?;
    line.text(b"\n")?;
    Ok(line.into_bytes())
}

/// The line of a power: `board power clean`, `board power kept NAME` or `board power absent NAME`. The name is that of the
/// application whose change was in doubt; it isn't read where none was.
pub fn power_line(alloc: Global, name: &[u8], power: Power) -> Result<Bytes, NoMemory>
    ensures { IfOk result (λ line. line ≡ power_text name.now power) }
{
    match power {
        Power::Clean => Bytes::from_slice(alloc, b"board power clean\n"),
        Power::Kept(_) => named_line(alloc, b"board power kept ", name),
        Power::Absent(_) => named_line(alloc, b"board power absent ", name),
    }
}
