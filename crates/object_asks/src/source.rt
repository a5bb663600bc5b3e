//! Where the kind, the usage and the secret of an object come from.

use tee_base::Bytes;
use transient_obj::ObjectKey;

/// Where an object's kind, usage and secret are.
#[derive(Drop)]
pub enum KeySource {
    /// There is no such object, or it isn't initialised.
    NoKey,
    /// In memory: these.
    InMemory(ObjectKey),
    /// In the store, under this identifier.
    InStore(Bytes),
}

impl KeySource {
    ghost use Rattle.std.specs.Prelude.{◌≡◌};
    ghost use Rattle.object_asks.specs.Sources.{is_no_key};

    /// Whether there is nothing that could be given.
    pub fn is_none(&self) -> bool
        ensures { result ≡ is_no_key self.now }
    {
        matches!(self, KeySource::NoKey)
    }
}
