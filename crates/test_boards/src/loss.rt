//! What a loss of power leaves of a block, as the plain model has it.

ghost use Rattle.std.specs.Prelude.{◌≡◌, ◌<◌};

/// What a loss of power leaves of a block that a write is pending for, each given by its first and its last byte: what
/// was durable, what was offered last, the one half of each, or open bytes, by the choices 0 to 3.
pub fn left_of(durable: (u8, u8), offered: (u8, u8), choice: u64) -> (u8, u8)
    ensures durable { choice ≡ 0 → result ≡ durable }
    ensures offered { choice ≡ 1 → result ≡ offered }
    ensures first_half { choice ≡ 2 → result.0 ≡ offered.0 }
    ensures second_half { choice ≡ 2 → result.1 ≡ durable.1 }
    ensures open { 2 < choice → result ≡ (165, 165) }
{
    match choice {
        0 => durable,
        1 => offered,
        2 => (offered.0, durable.1),
        _ => (0xA5, 0xA5),
    }
}
