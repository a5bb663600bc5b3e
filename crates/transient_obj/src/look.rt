//! What an object gives where an operation wants its key.

use crate::object_key::ObjectKey;
use tee_base::Code;

/// What an object gives, be it in memory or in storage.
#[derive(Drop)]
pub enum KeyLook {
    /// The kind, the usage and the secret of an initialised object.
    Key(ObjectKey),
    /// Nothing: there is no such object, or it isn't initialised.
    NoKey,
    /// Nothing: the storage that has the object refuses with this code.
    Refused(Code),
}
