//! What ends a message that is encrypted and authenticated.

use tee_base::Bytes;

/// The last bytes of the ciphertext, and the tag.
#[derive(Debug, Drop)]
pub struct OpSealed {
    pub content: Bytes,
    pub tag: Bytes,
}
