//! The number of a register.

ghost use Rattle.std.specs.Prelude.{◌≡◌, ◌<◌};

use std::marker::Model;

/// The number of a register, from 0 to 31.
#[derive(Clone, Copy, Debug)]
pub struct Register {
    number: u8,
}

impl Model for Register {
    ghost use Rattle.std.specs.Prelude.{ℕ, ◌<◌};

    ghost Value = { ℕ };

    ghost view = { λ r. r.number };

    ghost invariant = { λ r. r.number < 32 };

    ghost inverse = { λ n. record { number = n } };
}

impl Register {
    #[inline(always)]
    pub fn new(number: u8) -> Register
        requires { number < 32 }
        ensures { result ≡ number }
    {
        Register { number }
    }

    #[inline(always)]
    pub fn index(self) -> usize
        ensures value { result ≡ self }
        ensures below { result < 32 }
    {
        self.number as usize
    }
}
