//! Why a call is refused.

use thiserror::Error;

/// Why a call on a key is refused. Each refusal changes nothing.
#[derive(Clone, Copy, Debug, PartialEq, Eq, Error)]
pub enum KeyAnswer {
    /// The size doesn't fit the kind, or there is no such kind of key.
    #[error("key size or kind is not supported")]
    NotSupported,
    /// The secret doesn't fit the key.
    #[error("secret does not fit the key")]
    BadParameters,
    /// The application may not make this call: it panics.
    #[error("misuse of a key")]
    Misuse,
}
