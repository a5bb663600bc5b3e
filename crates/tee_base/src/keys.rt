//! Kinds of key objects, algorithms with their modes, usage bits: the numbers of TEE Internal Core API 1.3, sections 6.1 and 6.10.

/// Kinds of transient objects.
pub const KIND_AES: u32 = 0xA000_0010;

pub const KIND_HMAC_SHA256: u32 = 0xA000_0004;

pub const KIND_HMAC_SHA384: u32 = 0xA000_0005;

pub const KIND_HMAC_SHA512: u32 = 0xA000_0006;
/// A data object without a secret.
pub const KIND_DATA: u32 = 0xA000_00BF;

/// Usage bits of an object.
pub const USAGE_EXTRACTABLE: u32 = 0x1;

pub const USAGE_ENCRYPT: u32 = 0x2;

pub const USAGE_DECRYPT: u32 = 0x4;

pub const USAGE_MAC: u32 = 0x8;
/// The usage of a new object: all bits.
pub const USAGE_NEW: u32 = 0xFFFF_FFFF;

/// Algorithms.
pub const AES_ECB: u32 = 0x1000_0010;

pub const AES_CBC: u32 = 0x1000_0110;

pub const AES_CTR: u32 = 0x1000_0210;

pub const AES_GCM: u32 = 0x4000_0810;

pub const AES_CMAC: u32 = 0x3000_0610;

pub const HMAC_SHA256: u32 = 0x3000_0004;

pub const HMAC_SHA384: u32 = 0x3000_0005;

pub const HMAC_SHA512: u32 = 0x3000_0006;

pub const SHA256: u32 = 0x5000_0004;

pub const SHA384: u32 = 0x5000_0005;

pub const SHA512: u32 = 0x5000_0006;

/// Modes of an operation.
pub const MODE_ENCRYPT: u32 = 0;

pub const MODE_DECRYPT: u32 = 1;

pub const MODE_MAC: u32 = 4;

pub const MODE_DIGEST: u32 = 5;
