//! Which secrets fit which kind of key.

ghost use Rattle.std.specs.Prelude.{◌≡◌, ◌*◌, ◌≤◌, length, IsTrue};
ghost use Rattle.std.specs.Bool.{OnTrue};
ghost use Rattle.tee_base.specs.KeySizes as sizes;
ghost use Rattle.secret.specs.Bits.{bits_of};

use secret::size_fits;
use tee_base::limits::MAX_SECRET_BYTES;

/// Whether a secret of these bytes fits the kind of key.
#[tactic(auto, unfolding(tee_base::specs::KeySizes::size_fits))]
pub fn secret_fits(kind: u32, secret: &[u8]) -> bool
    ensures table { result ≡ sizes.size_fits kind (bits_of secret.now) }
    ensures small { OnTrue result (length secret.now ≤ MAX_SECRET_BYTES) }
{
    secret.len() <= MAX_SECRET_BYTES && size_fits(kind, 8 * secret.len() as u32)
}
