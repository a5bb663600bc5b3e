//! A text that is put together from pieces.

use std::alloc::Global;
use std::marker::Model;
use tee_base::{Bytes, NoMemory};

/// The bytes of a text so far.
#[derive(Drop)]
pub struct Text {
    alloc: Global,
    bytes: Vec<u8>,
}

impl Model for Text {
    ghost use Rattle.std.specs.Prelude.{List, ℕ};

    ghost Value = { List ℕ };

    ghost view = { λ t. t.bytes.items };
}

impl Text {
    ghost use Rattle.std.specs.Prelude.{◌≡◌, ◌++◌, [], OnOk};
    ghost use Rattle.std.specs.Fmt.{decimal};
    ghost use Rattle.hex.specs.Hex.{encode_lower};

    /// No text yet.
    pub fn new(alloc: Global) -> Text
        ensures { result ≡ [] }
    {
        Text {
            alloc,
            bytes: Vec::new(alloc),
        }
    }

    /// Appends these bytes.
    pub fn push(&mut self, piece: &[u8]) -> Result<(), NoMemory>
        ensures { OnOk result (self.new ≡ self.old ++ piece.now) }
    {
        self.bytes.extend_from_slice(piece)?;
        Ok(())
    }

    /// Appends a number in decimal digits.
    pub fn number(&mut self, number: u64) -> Result<(), NoMemory>
        ensures { OnOk result (self.new ≡ self.old ++ decimal number) }
    {
        let digits = number.to_string(self.alloc)?;
        self.push(digits.as_bytes())
    }

    /// Appends bytes in lower-case hexadecimal digits, two for each.
    pub fn hex(&mut self, bytes: &[u8]) -> Result<(), NoMemory>
        ensures { OnOk result (self.new ≡ self.old ++ encode_lower bytes.now) }
    {
        let digits = hex::encode(self.alloc, bytes)?;
        self.push(digits.as_bytes())
    }

    /// The text. It takes no memory.
    pub fn into_bytes(self) -> Bytes
        ensures { result ≡ self }
    {
        Bytes::from_vec(self.bytes)
    }
}
