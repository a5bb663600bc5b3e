//! The start of a message with associated data that come in two pieces.

ghost use Rattle.std.specs.Prelude.{◌≤◌, length, IfOk};
ghost use Rattle.aes_core.specs.Key.{key_bytes};
ghost use Rattle.ae_modes.specs.Message.{begun, with_aad};
ghost use Rattle.ae_modes.specs.Represents.{Represents};

use ae_modes::{AeAnswer, AeWay, Gcm, gcm};
use aes_core::Key;

/// A message with these associated data and a tag of 128 bits, at its start.
pub fn begin(key: Key, way: AeWay, nonce: &[u8], aad: &[u8]) -> Result<Gcm, AeAnswer>
    requires { length nonce.now ≤ 524288 }
    ensures { IfOk result
        (λ g. Represents g (with_aad (begun (key_bytes key) way nonce.now 128) aad.now)) }
{
    let half = aad.len() / 2;
    let mut message = gcm(key, way, nonce, 128)?;
    message.aad(&aad[..half])?;
    message.aad(&aad[half..])?;
    Ok(message)
}
