//! A block beside the one that a key encrypts it to.

ghost use Rattle.std.specs.Prelude.{◌≡◌, IsTrue};
ghost use Rattle.aes_core.specs.Cipher.{cipher, inv_cipher};
ghost use Rattle.aes_core.specs.Key.{key_bytes};

use aes_core::{Key, decrypt_block, encrypt_block};

/// Whether the key encrypts the one block to the other, and decrypts that to the first.
pub fn is_pair(key: &Key, plain: &[u8; 16], sealed: &[u8; 16]) -> bool
    ensures encrypted { IsTrue result → cipher (key_bytes key.now) plain.now ≡ sealed.now }
    ensures decrypted { IsTrue result → inv_cipher (key_bytes key.now) sealed.now ≡ plain.now }
    ensures pair { cipher (key_bytes key.now) plain.now ≡ sealed.now
        → inv_cipher (key_bytes key.now) sealed.now ≡ plain.now → IsTrue result }
{
    let mut encrypted = *plain;
    encrypt_block(key, &mut encrypted);
    let mut decrypted = *sealed;
    decrypt_block(key, &mut decrypted);
    encrypted == *sealed && decrypted == *plain
}
