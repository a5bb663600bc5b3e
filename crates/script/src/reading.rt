//! Reading a script line by line.

ghost use Rattle.std.specs.Prelude.{◌≡◌, ◌≤◌, ◌+◌, List, IfOk, length};
ghost use Rattle.tee_base.specs.declared.limits.TheConstants.{MAX_FILL_BYTES};
ghost use Rattle.script.specs.Parameters.{Gives};
ghost use Rattle.script.specs.Scripts.{no_reading, reading_after, with_line, with_meaning};

use crate::dialect::{Dialect, takes};
use crate::line::{Line, Meaning, ReadMeaning};
use crate::meaning::meaning_of;
use crate::words::LineError;
use app_api::Host;
use std::alloc::Global;
use std::marker::Model;
use tee_base::limits;

/// What was read so far: whose lines come, how many bytes were filled in, and the lines.
#[derive(Drop)]
pub struct Reader {
    client: u8,
    filled: u32,
    lines: Vec<Line>,
}

impl Model for Reader {
    ghost use Rattle.script.specs.Scripts.{Reading};

    ghost Value = { Reading };

    ghost view = { λ r. record { client = r.client; filled = r.filled; lines = r.lines.items } };
}

impl Reader {
    ghost use Rattle.std.specs.Prelude.{◌≡◌};
    ghost use Rattle.script.specs.Scripts.{no_reading};

    /// Before the first line.
    pub fn new(alloc: Global) -> Reader
        ensures { result ≡ no_reading }
    {
        Reader {
            client: 0,
            filled: 0,
            lines: Vec::new(alloc),
        }
    }

    /// The lines. It takes no memory.
    pub fn into_lines(self) -> Vec<Line>
        ensures { result.items ≡ self.lines }
    {
        self.lines
    }
}

/// What is read after one more line of this meaning, with so many bytes filled in.
fn with_meaning(
    dialect: Dialect,
    reader: Reader,
    filled: u32,
    meaning: Meaning,
) -> Result<Reader, LineError>
    ensures value { Gives result (with_meaning dialect reader filled meaning) }
    ensures filled { IfOk result (λ next. next.filled ≡ filled) }
{
    let Reader {
        client,
        mut lines,
        ..
    } = reader;
    let client = match meaning {
        Meaning::Nothing => {
            drop(meaning);
            client
        }
        Meaning::Client(next) => {
            drop(meaning);
            next
        }
        Meaning::Script(line) => {
            if !takes(dialect, &line) {
                drop(line);
                drop(lines);
                return Err(LineError::Bad);
            }
            lines.push(line)?;
            client
        }
    };
    Ok(Reader {
        client,
        filled,
        lines,
    })
}

/// What is read after one more line, which stands without its end.
#[tactic(auto, unfolding(crate::specs::Scripts::reading_after))]
pub fn read_line<A>(
    alloc: Global,
    dialect: Dialect,
    hosts: &[Host<A>],
    reader: Reader,
    line: &[u8],
) -> Result<Reader, LineError>
    requires few { length hosts.now ≤ 16 }
    requires within { reader.filled ≤ MAX_FILL_BYTES }
    ensures value { Gives result (reading_after dialect hosts.now reader line.now) }
    ensures within { IfOk result (λ next. next.filled ≤ MAX_FILL_BYTES) }
{
    let ReadMeaning { meaning, fills } = match meaning_of(alloc, hosts, reader.client, line) {
        Ok(read) => read,
        Err(error) => {
            drop(reader);
            return Err(error);
        }
    };
    let filled = reader.filled + fills;
    if filled > limits::MAX_FILL_BYTES {
        drop(meaning);
        drop(reader);
        return Err(LineError::Bad);
    }
    with_meaning(dialect, reader, filled, meaning)
}
