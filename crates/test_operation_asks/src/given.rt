//! The keys that objects give in the tests.

ghost use Rattle.std.specs.Prelude.{◌≡◌};

use transient_obj::{KeyLook, ObjectKey, Secret};

/// The key of this kind and this secret, for this usage and no other.
pub fn key_with(kind: u32, usage: u32, secret: Secret) -> KeyLook
    ensures { result ≡ KeyLook.Key (record { kind = kind; usage = usage; secret = secret }) }
{
    KeyLook::Key(ObjectKey {
        kind,
        usage,
        secret,
    })
}
