//! Which bytes the tests may name an object by.

ghost use Rattle.std.specs.Prelude.{IsTrue, ◌↔◌};
ghost use Rattle.store_api.specs.Limits.{IsIdentifier};

use tee_base::limits::MAX_IDENTIFIER_BYTES;

/// Whether a store may be asked for these bytes: an identifier has at most 64.
pub fn is_identifier(bytes: &[u8]) -> bool
    ensures { IsTrue result ↔ IsIdentifier bytes.now }
{
    bytes.len() <= MAX_IDENTIFIER_BYTES
}
