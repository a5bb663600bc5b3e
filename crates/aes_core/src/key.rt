// Expanded keys.

ghost use Rattle.aes_core.specs.KeyExpansion.{IsExpansion};

use thiserror::Error;

/// A key with the words of its round keys, for encryption and for decryption.
#[derive(Clone, Copy)]
pub struct Key {
    pub(crate) rounds: usize,
    pub(crate) words: [u32; 60],
    pub(crate) inverse_words: [u32; 60],
    ghost expansion: { IsExpansion rounds words inverse_words },
}

/// A key whose length in bytes is none of 16, 24 and 32.
#[derive(Clone, Copy, Debug, PartialEq, Eq, Error)]
#[error("a key has 16, 24 or 32 bytes, and this one has {0}")]
pub struct WrongKeyLength(pub usize);
