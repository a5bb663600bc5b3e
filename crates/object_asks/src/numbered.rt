//! Keys and enumerators with their instances and numbers.

use tee_base::Bytes;
use transient_obj::Transient;

/// A key in memory, under the number of its handle.
#[derive(Drop)]
pub struct NumberedKey {
    pub instance: u8,
    pub number: u32,
    pub key: Transient,
}

impl NumberedKey {
    ghost use Rattle.std.specs.Prelude.{◌≡◌};
    ghost use Rattle.object_asks.specs.Held.{is_key_at};

    /// Whether it is the instance's key of this number.
    pub fn is_at(&self, instance: u8, number: u32) -> bool
        ensures { result ≡ is_key_at instance number self.now }
    {
        self.instance == instance && self.number == number
    }
}

/// How far an enumerator has come.
#[derive(Drop)]
pub enum Walk {
    /// It isn't started.
    Idle,
    /// It is started, and has given this identifier last.
    Started(Option<Bytes>),
}

/// An enumerator of an instance.
#[derive(Drop)]
pub struct NumberedList {
    pub instance: u8,
    pub number: u8,
    pub walk: Walk,
}

impl NumberedList {
    ghost use Rattle.std.specs.Prelude.{◌≡◌};
    ghost use Rattle.object_asks.specs.Held.{is_list_at};

    /// Whether it is the instance's enumerator of this number.
    pub fn is_at(&self, instance: u8, number: u32) -> bool
        ensures { result ≡ is_list_at instance number self.now }
    {
        self.instance == instance && u32::from(self.number) == number
    }
}
