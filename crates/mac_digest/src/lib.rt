//! SHA-2 digests (FIPS 180-4) and HMAC (RFC 2104, FIPS 198-1) as objects that start anew.
//!
//! ```rust
//! use mac_digest::{Hash, hmac};
//!
//! let mut mac = hmac(Hash::Sha256, b"key");
//! mac.update(b"hello ");
//! mac.update(b"world");
//! let tag = mac.finish();
//! mac.update(b"hello world");
//! assert!(rt; mac.compare(tag.as_slice()));
//! ```
//!
//! No call takes memory, and none can fail.
#![tactic(auto)]

mod digests;
mod macs;

pub use digests::{Digester, Hash, Tag, digest};
pub use macs::{Mac, hmac, is_same};
