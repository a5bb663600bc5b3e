//! What may stand at a place of a line, in words.

use app_api::Host;
use std::alloc::AllocError;
use std::str;

/// A number of a line: what it is called, and its bounds.
pub struct Number {
    pub name: &'static str,
    pub low: u64,
    pub high: u64,
}

/// What may stand at a place of a line.
#[derive(Clone, Copy)]
pub enum Wanted {
    /// The first word: the line is about a client, the board or an application.
    Subject,
    /// A number within its bounds.
    Number(&'static Number),
    /// A word of these forms.
    Words(&'static str),
}

/// Parameters of each form.
pub const PARAMETER: &str =
    "-, vi:A:B, vo, vio:A:B, mi:HEX, mio:HEX, mf:SIZE:HH, mo:SIZE, sw:B, si:B:AT:SIZE, so:B:AT:SIZE or sio:B:AT:SIZE";
/// A login or a parameter of each form.
pub const LOGIN_OR_PARAMETER: &str =
    "user:U, group:G, app:ID, -, vi:A:B, vo, vio:A:B, mi:HEX, mio:HEX, mf:SIZE:HH, mo:SIZE, sw:B, si:B:AT:SIZE, so:B:AT:SIZE or sio:B:AT:SIZE";
/// Of a login `app`.
pub const APPLICATION: &str =
    "an identifier after it: 32 hexadecimal digits, also with hyphens, in braces or after urn:uuid:";
/// Of the bytes of a line `fill`. A word has one character at least, so they are one byte at least.
pub const BYTES: &str = "two hexadecimal digits for each byte";
/// After the last word that a line may have.
pub const END: &str = "nothing more";

/// Writes the names of the hosts, where one of them may stand.
fn write_names<A>(text: &mut String, hosts: &[Host<A>]) -> Result<(), AllocError> {
    for (index, host) in hosts.iter().enumerate() {
        text.push_str(if index == 0 { " (" } else { ", " })?;
        text.push_str(str::from_utf8(host.name.as_slice()).unwrap_or(""))?;
    }
    if !hosts.is_empty() {
        text.push_str(")")?;
    }
    Ok(())
}

/// Writes what may stand there.
pub fn write_wanted<A>(
    text: &mut String,
    hosts: &[Host<A>],
    wanted: Wanted,
) -> Result<(), AllocError> {
    match wanted {
        Wanted::Subject => {
            text.push_str("client, board, or the name or identifier of a host")?;
            write_names(text, hosts)
        }
        Wanted::Number(Number { name, low, high }) => {
            write!(text, "{name}, in decimal digits from {low} to {high}")
        }
        Wanted::Words(words) => text.push_str(words),
    }
}
