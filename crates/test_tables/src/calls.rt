//! Which call of the tests' streams fails.

ghost use Rattle.std.specs.Prelude.{◌≡◌, ◌↔◌, IsTrue};

/// Whether the call with this number, counted from 0, fails: the second does, and no other.
pub fn fails(call: u8) -> bool
    ensures { IsTrue result ↔ (call ≡ 1) }
{
    call == 1
}
