// A message that is encrypted or decrypted, and authenticated, piece by piece.

ghost use Rattle.std.specs.Prelude.{◌≤◌, ◌-◌, ◌^◌};

use crate::answers::AeWay;
use crate::ghash::Ghash;
use aes_core::Key;

/// A message so far, with its associated data so far.
#[derive(Clone, Copy)]
pub struct Gcm {
    pub(crate) key: Key,
    pub(crate) way: AeWay,
    // The counter before the first, which enciphers the tag.
    pub(crate) counter: u128,
    // How many bytes the tag has.
    pub(crate) tag_len: usize,
    pub(crate) hash: Ghash,
    // How many bytes there are so far of the associated data, and of the message.
    pub(crate) aad_len: usize,
    pub(crate) text_len: usize,
    ghost tag_fits: { tag_len ≤ 16 },
    ghost aad_fits: { aad_len ≤ 2 ^ 32 },
    ghost text_fits: { text_len ≤ 2 ^ 36 - 32 },
}
