//! Codes by HMAC-SHA-256 (RFC 2104) under a key that was made ready once.
//!
//! A code copies two hashers, and not a whole `Mac` with what it needs to start anew.
ghost use Rattle.std.specs.Prelude.{◌≡◌, ℕ, List, ◌++◌};
ghost use Rattle.sha2.specs.Hashers.{Holds256};
ghost use Rattle.mac_digest.specs.Hmac.{block_key, hmac_of, xor_each};
ghost use Rattle.mac_digest.specs.declared.digests.Hash.TheVariants as hash_by;
ghost use Rattle.seal.specs.Keys.{IsCodeKeyOf};

use sha2::{Digest, Sha256};

// FIPS 198-1 section 3
const IPAD: u8 = 0x36;

const OPAD: u8 = 0x5c;

/// A key of codes: hashers that have taken in its block under ipad and under opad.
#[derive(Drop)]
pub(crate) struct CodeKey {
    inner: Sha256,
    outer: Sha256,
}

impl CodeKey {
    /// The key made ready.
    #[tactic(auto, unfolding(crate::specs::Keys::IsCodeKeyOf))]
    pub(crate) fn of(key: &[u8; 32]) -> CodeKey
        ensures { IsCodeKeyOf result key.now }
    {
        let block = block_of(key);
        CodeKey {
            inner: begun(&block, IPAD),
            outer: begun(&block, OPAD),
        }
    }

    /// The code of a message in two parts.
    pub(crate) fn code_of(&self, head: &[u8], rest: &[u8]) -> [u8; 32]
        ensures { (key : List ℕ) → IsCodeKeyOf self.now key
            → result ≡ hmac_of hash_by.Sha256 key (head.now ++ rest.now) }
    {
        let mut inner = copied(&self.inner);
        inner.update(head);
        inner.update(rest);
        let digest = inner.finalize();
        let mut outer = copied(&self.outer);
        outer.update(digest.as_slice());
        outer.finalize()
    }
}

/// The key and zeros after it.
fn block_of(key: &[u8; 32]) -> [u8; 64]
    ensures { result ≡ block_key hash_by.Sha256 key.now }
{
    let mut block = [0; 64];
    block[..32].copy_from_slice(key);
    block
}

/// A hasher that has taken in a block, each byte of it xored with `pad`.
fn begun(block: &[u8; 64], pad: u8) -> Sha256
    ensures { Holds256 result (xor_each pad block.now) }
{
    let mut padded = *block;
    for byte in padded.iter_mut() {
        *byte ^= pad;
    }
    let mut hasher = Sha256::new();
    hasher.update(padded.as_slice());
    hasher
}

/// A clone, which never fails.
fn copied(hasher: &Sha256) -> Sha256
    ensures { result ≡ hasher.now }
{
    hasher.clone().unwrap()
}
