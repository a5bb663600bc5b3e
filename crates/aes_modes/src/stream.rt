// A message that is encrypted or decrypted piece by piece.

ghost use Rattle.std.specs.Prelude.{◌<◌};

use crate::modes::{Mode, Way};
use aes_core::Key;

/// A stream that stands for its whole message so far.
#[derive(Clone, Copy)]
pub struct Stream {
    pub(crate) key: Key,
    pub(crate) mode: Mode,
    pub(crate) way: Way,
    pub(crate) iv: [u8; 16],
    // What CBC adds to the next block.
    pub(crate) vector: [u8; 16],
    // The number of the next counter block.
    pub(crate) counter: u128,
    // The bytes that wait for the rest of their block.
    pub(crate) held: [u8; 16],
    // How far the message is into a block.
    pub(crate) count: usize,
    ghost within: { count < 16 },
}
