//! What is told of a new operation.

ghost use Rattle.std.specs.Prelude.{◌≡◌, IsTrue, false};

use crypto_ops::OpAbout;

/// Whether an operation of which this is told is new: of this algorithm, mode and greatest size, initial and without a
/// key.
pub fn is_new(about: &OpAbout, alg: u32, mode: u32, max_bits: u32) -> bool
    ensures alg { IsTrue result → about.now.alg ≡ alg }
    ensures mode { IsTrue result → about.now.mode ≡ mode }
    ensures greatest { IsTrue result → about.now.max_bits ≡ max_bits }
    ensures keyless { IsTrue result → about.now.key_bits ≡ 0 }
    ensures initial { IsTrue result → about.now.active ≡ false }
    ensures new { about.now ≡ record {
      alg = alg;
      mode = mode;
      max_bits = max_bits;
      key_bits = 0;
      active = false;
    } → IsTrue result }
{
    let wanted = OpAbout {
        alg,
        mode,
        max_bits,
        key_bits: 0,
        active: false,
    };
    *about == wanted
}
