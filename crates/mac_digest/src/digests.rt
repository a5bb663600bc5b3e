//! The hash functions, their digests, and a digester that starts anew.
ghost use Rattle.std.specs.Prelude.{◌≡◌, ⊤, ℕ, List, [], ◌++◌, length};
ghost use Rattle.mac_digest.specs.Hash.{digest_of, digest_len, block_len};
ghost use Rattle.mac_digest.specs.Digester.{HoldsMessage, HasTaken, hash_of};

use sha2::{Digest, Sha256, Sha384, Sha512};
use std::alloc::AllocError;
use std::marker::Model;

/// A hash function of the SHA-2 family (FIPS 180-4 sections 6.2, 6.5 and 6.4).
#[derive(Clone, Copy, Debug, PartialEq, Eq)]
pub enum Hash {
    Sha256,
    Sha384,
    Sha512,
}

impl Hash {
    /// How many bytes a digest has (FIPS 180-4 figure 1).
    pub fn digest_len(self) -> usize
        ensures { result ≡ digest_len self }
    {
        match self {
            Hash::Sha256 => 32,
            Hash::Sha384 => 48,
            Hash::Sha512 => 64,
        }
    }

    /// How many bytes a block has (FIPS 180-4 figure 1).
    pub fn block_len(self) -> usize
        ensures { result ≡ block_len self }
    {
        match self {
            Hash::Sha256 => 64,
            Hash::Sha384 | Hash::Sha512 => 128,
        }
    }
}

/// A digest or a message authentication code, of 32, 48 or 64 bytes.
#[derive(Clone, Debug, Drop)]
pub struct Tag {
    bytes: TagBytes,
}

#[derive(Clone, Debug, Drop)]
enum TagBytes {
    Of32([u8; 32]),
    Of48([u8; 48]),
    Of64([u8; 64]),
}

impl Model for Tag {
    ghost use Rattle.std.specs.Prelude.{List, ℕ};

    ghost Value = { List ℕ };

    ghost use Rattle.mac_digest.specs.Tag.{bytes_of};

    ghost view = { λ tag. bytes_of tag.bytes };
}

impl Tag {
    /// The bytes.
    pub fn as_slice(&self) -> &[u8]
        ensures { result.now ≡ self.now }
    {
        match &self.bytes {
            TagBytes::Of32(bytes) => bytes,
            TagBytes::Of48(bytes) => bytes,
            TagBytes::Of64(bytes) => bytes,
        }
    }
}

/// Computes the digest of a message that comes in pieces, and starts anew after each one.
#[derive(Drop)]
pub struct Digester {
    hasher: Hasher,
}

#[derive(Drop)]
enum Hasher {
    Sha256(Sha256),
    Sha384(Sha384),
    Sha512(Sha512),
}

/// A digester of the empty message.
pub fn digest(hash: Hash) -> Digester
    ensures { HoldsMessage result hash [] }
{
    let hasher = match hash {
        Hash::Sha256 => Hasher::Sha256(Sha256::new()),
        Hash::Sha384 => Hasher::Sha384(Sha384::new()),
        Hash::Sha512 => Hasher::Sha512(Sha512::new()),
    };
    Digester { hasher }
}

impl Digester {
    /// Adds bytes to the message.
    pub fn update(&mut self, bytes: &[u8])
        ensures { (hash : Hash) (message : List ℕ) → HoldsMessage self.old hash message
            → HoldsMessage self.new hash (message ++ bytes.now) }
    {
        match &mut self.hasher {
            Hasher::Sha256(hasher) => hasher.update(bytes),
            Hasher::Sha384(hasher) => hasher.update(bytes),
            Hasher::Sha512(hasher) => hasher.update(bytes),
        }
    }

    /// The digest of the message. The digester is then as at its start.
    pub fn finish(&mut self) -> Tag
        ensures digest { (hash : Hash) (message : List ℕ) → HoldsMessage self.old hash message
            → result ≡ digest_of hash message }
        ensures length { (hash : Hash) (message : List ℕ) → HoldsMessage self.old hash message
            → length result ≡ digest_len hash }
        ensures started { (hash : Hash) (message : List ℕ) → HoldsMessage self.old hash message
            → HoldsMessage self.new hash [] }
    {
        let bytes = match &mut self.hasher {
            Hasher::Sha256(hasher) => TagBytes::Of32(hasher.finalize_reset()),
            Hasher::Sha384(hasher) => TagBytes::Of48(hasher.finalize_reset()),
            Hasher::Sha512(hasher) => TagBytes::Of64(hasher.finalize_reset()),
        };
        Tag { bytes }
    }

    // A clone, which never fails.
    pub(crate) fn copied(&self) -> Digester
        ensures { result ≡ self.now }
    {
        self.clone().unwrap()
    }
}

/// A clone goes on from the same message, and never fails.
impl Clone for Digester {
    ghost is_clone = { λ x y. y ≡ x };

    ghost is_infallible = { λ _. ⊤ };

    fn clone(&self) -> Result<Digester, AllocError> {
        let hasher = match &self.hasher {
            Hasher::Sha256(hasher) => Hasher::Sha256(hasher.clone()?),
            Hasher::Sha384(hasher) => Hasher::Sha384(hasher.clone()?),
            Hasher::Sha512(hasher) => Hasher::Sha512(hasher.clone()?),
        };
        Ok(Digester { hasher })
    }
}
