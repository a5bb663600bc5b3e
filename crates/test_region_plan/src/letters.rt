//! How long the identifiers are that rows name by a letter.

ghost use Rattle.std.specs.Prelude.{◌≡◌, ◌≤◌, ◌<◌};
ghost use Rattle.tee_base.specs.declared.limits.TheConstants.{MAX_IDENTIFIER_BYTES};

use tee_base::limits::MAX_IDENTIFIER_BYTES;

/// How many bytes the identifier of a letter has: one, and of a capital as many as an identifier may have.
pub fn identifier_bytes(letter: u8) -> usize
    ensures capital { letter < 97 → result ≡ MAX_IDENTIFIER_BYTES }
    ensures small { 97 ≤ letter → result ≡ 1 }
    ensures limit { result ≤ MAX_IDENTIFIER_BYTES }
{
    if letter < b'a' {
        MAX_IDENTIFIER_BYTES
    } else {
        1
    }
}
