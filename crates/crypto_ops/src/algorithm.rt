//! Algorithms with their modes, and their numbers.

ghost use Rattle.std.specs.Prelude.{◌≡◌, IfSome};
ghost use Rattle.crypto_ops.specs.Algorithms as table;

use aes_modes::{Mode, Way};
use mac_digest::Hash;
use tee_base::keys;

/// What an operation computes.
#[derive(Clone, Copy, Debug, PartialEq, Eq)]
pub enum Algorithm {
    /// AES in a mode of operation, one way or the other.
    Cipher(Mode, Way),
    /// AES-GCM, one way or the other.
    Gcm(Way),
    /// HMAC over a hash function.
    Mac(Hash),
    /// AES-CMAC.
    Cmac,
    /// A digest.
    Digest(Hash),
}

/// The algorithm and mode of these numbers, where there are such (TEE Internal Core API 1.3, section 6.10.1).
#[tactic(auto, unfolding(crate::specs::Algorithms::algorithm_at))]
pub fn algorithm_at(number: u32, mode: u32) -> Option<Algorithm>
    ensures table { result ≡ table.algorithm_at number mode }
    ensures numbers { IfSome result (λ a.
        (table.algorithm_number a ≡ number) × (table.mode_number a ≡ mode)) }
{
    match number {
        keys::AES_ECB => cipher_at(Mode::Ecb, mode),
        keys::AES_CBC => cipher_at(Mode::Cbc, mode),
        keys::AES_CTR => cipher_at(Mode::Ctr, mode),
        keys::AES_GCM => gcm_at(mode),
        keys::HMAC_SHA256 => mac_at(Hash::Sha256, mode),
        keys::HMAC_SHA384 => mac_at(Hash::Sha384, mode),
        keys::HMAC_SHA512 => mac_at(Hash::Sha512, mode),
        keys::AES_CMAC => cmac_at(mode),
        keys::SHA256 => digest_at(Hash::Sha256, mode),
        keys::SHA384 => digest_at(Hash::Sha384, mode),
        keys::SHA512 => digest_at(Hash::Sha512, mode),
        _ => None,
    }
}

fn cipher_at(mode: Mode, number: u32) -> Option<Algorithm>
    ensures table { result ≡ table.cipher_at mode number }
    ensures numbers { IfSome result (λ a.
        (table.algorithm_number a ≡ table.algorithm_number (Algorithm.Cipher mode Way.Encrypt))
        × (table.mode_number a ≡ number)) }
{
    match number {
        keys::MODE_ENCRYPT => Some(Algorithm::Cipher(mode, Way::Encrypt)),
        keys::MODE_DECRYPT => Some(Algorithm::Cipher(mode, Way::Decrypt)),
        _ => None,
    }
}

fn gcm_at(number: u32) -> Option<Algorithm>
    ensures table { result ≡ table.gcm_at number }
    ensures numbers { IfSome result (λ a.
        (table.algorithm_number a ≡ table.algorithm_number (Algorithm.Gcm Way.Encrypt))
        × (table.mode_number a ≡ number)) }
{
    match number {
        keys::MODE_ENCRYPT => Some(Algorithm::Gcm(Way::Encrypt)),
        keys::MODE_DECRYPT => Some(Algorithm::Gcm(Way::Decrypt)),
        _ => None,
    }
}

fn cmac_at(number: u32) -> Option<Algorithm>
    ensures table { result ≡ table.cmac_at number }
    ensures numbers { IfSome result (λ a.
        (table.algorithm_number a ≡ table.algorithm_number Algorithm.Cmac)
        × (table.mode_number a ≡ number)) }
{
    if number == keys::MODE_MAC {
        Some(Algorithm::Cmac)
    } else {
        None
    }
}

fn mac_at(hash: Hash, number: u32) -> Option<Algorithm>
    ensures table { result ≡ table.mac_at hash number }
    ensures numbers { IfSome result (λ a.
        (table.algorithm_number a ≡ table.algorithm_number (Algorithm.Mac hash))
        × (table.mode_number a ≡ number)) }
{
    if number == keys::MODE_MAC {
        Some(Algorithm::Mac(hash))
    } else {
        None
    }
}

fn digest_at(hash: Hash, number: u32) -> Option<Algorithm>
    ensures table { result ≡ table.digest_at hash number }
    ensures numbers { IfSome result (λ a.
        (table.algorithm_number a ≡ table.algorithm_number (Algorithm.Digest hash))
        × (table.mode_number a ≡ number)) }
{
    if number == keys::MODE_DIGEST {
        Some(Algorithm::Digest(hash))
    } else {
        None
    }
}

impl Algorithm {
    /// The number of the algorithm.
    pub fn number(self) -> u32
        ensures { result ≡ table.algorithm_number self }
    {
        match self {
            Algorithm::Cipher(Mode::Ecb, _) => keys::AES_ECB,
            Algorithm::Cipher(Mode::Cbc, _) => keys::AES_CBC,
            Algorithm::Cipher(Mode::Ctr, _) => keys::AES_CTR,
            Algorithm::Gcm(_) => keys::AES_GCM,
            Algorithm::Mac(Hash::Sha256) => keys::HMAC_SHA256,
            Algorithm::Mac(Hash::Sha384) => keys::HMAC_SHA384,
            Algorithm::Mac(Hash::Sha512) => keys::HMAC_SHA512,
            Algorithm::Cmac => keys::AES_CMAC,
            Algorithm::Digest(Hash::Sha256) => keys::SHA256,
            Algorithm::Digest(Hash::Sha384) => keys::SHA384,
            Algorithm::Digest(Hash::Sha512) => keys::SHA512,
        }
    }

    /// The number of its mode.
    pub fn mode(self) -> u32
        ensures { result ≡ table.mode_number self }
    {
        match self {
            Algorithm::Cipher(_, Way::Encrypt) | Algorithm::Gcm(Way::Encrypt) => keys::MODE_ENCRYPT,
            Algorithm::Cipher(_, Way::Decrypt) | Algorithm::Gcm(Way::Decrypt) => keys::MODE_DECRYPT,
            Algorithm::Mac(_) | Algorithm::Cmac => keys::MODE_MAC,
            Algorithm::Digest(_) => keys::MODE_DIGEST,
        }
    }

    /// The kind of its keys; a digest has none.
    pub(crate) fn key_kind(self) -> Option<u32>
        ensures { result ≡ table.key_kind self }
    {
        match self {
            Algorithm::Cipher(..) | Algorithm::Gcm(_) | Algorithm::Cmac => Some(keys::KIND_AES),
            Algorithm::Mac(Hash::Sha256) => Some(keys::KIND_HMAC_SHA256),
            Algorithm::Mac(Hash::Sha384) => Some(keys::KIND_HMAC_SHA384),
            Algorithm::Mac(Hash::Sha512) => Some(keys::KIND_HMAC_SHA512),
            Algorithm::Digest(_) => None,
        }
    }

    /// The usage that a key must have.
    pub(crate) fn usage_bit(self) -> u32
        ensures { result ≡ table.usage_bit self }
    {
        match self {
            Algorithm::Cipher(_, Way::Encrypt) | Algorithm::Gcm(Way::Encrypt) =>
                keys::USAGE_ENCRYPT,
            Algorithm::Cipher(_, Way::Decrypt) | Algorithm::Gcm(Way::Decrypt) =>
                keys::USAGE_DECRYPT,
            Algorithm::Mac(_) | Algorithm::Cmac => keys::USAGE_MAC,
            Algorithm::Digest(_) => 0,
        }
    }

    pub(crate) fn is_digest(self) -> bool
        ensures { result ≡ table.is_digest self }
    {
        matches!(self, Algorithm::Digest(_))
    }
}
