//! What an object gives to an operation.

use secret::Secret;

/// The key that an object gives, be it in memory or in storage: its kind, its usage and its secret, which is empty where
/// the kind has none.
#[derive(Drop)]
pub struct ObjectKey {
    pub kind: u32,
    pub usage: u32,
    pub secret: Secret,
}
