//! Message authentication codes by HMAC (RFC 2104, FIPS 198-1), and a value that starts anew.
ghost use Rattle.std.specs.Prelude.{◌≡◌, ◌≤◌, ◌↔◌, ⊤, ℕ, List, [], ◌++◌, length, take, IsTrue};
ghost use Rattle.mac_digest.specs.Hash.{block_len, digest_len};
ghost use Rattle.mac_digest.specs.Hmac.{block_key, hmac_of, xor_each, zero_filled};
ghost use Rattle.mac_digest.specs.Digester.{HoldsMessage};
ghost use Rattle.mac_digest.specs.Mac.{HoldsKeyedMessage};

use crate::digests::{Digester, Hash, Tag, digest};
use std::alloc::AllocError;

// FIPS 198-1 section 3
const IPAD: u8 = 0x36;

const OPAD: u8 = 0x5c;

// The bytes of the longest block.
const MAX_BLOCK_LEN: usize = 128;

/// Authenticates messages that come in pieces, under one key, and starts anew after each one.
#[derive(Drop)]
pub struct Mac {
    inner: Digester,
    inner_start: Digester,
    outer_start: Digester,
}

/// The authentication of the empty message under a key of any length.
pub fn hmac(hash: Hash, key: &[u8]) -> Mac
    ensures { HoldsKeyedMessage result hash key.now [] }
{
    let block = key_block(hash, key);
    let inner_start = begin(hash, &block, IPAD);
    Mac {
        inner: inner_start.copied(),
        inner_start,
        outer_start: begin(hash, &block, OPAD),
    }
}

impl Mac {
    /// Adds bytes to the message.
    pub fn update(&mut self, bytes: &[u8])
        ensures { (hash : Hash) (key message : List ℕ) → HoldsKeyedMessage self.old hash key message
            → HoldsKeyedMessage self.new hash key (message ++ bytes.now) }
    {
        self.inner.update(bytes);
    }

    /// The code of the message. The value is then as at its start.
    pub fn finish(&mut self) -> Tag
        ensures code { (hash : Hash) (key message : List ℕ)
            → HoldsKeyedMessage self.old hash key message → result ≡ hmac_of hash key message }
        ensures length { (hash : Hash) (key message : List ℕ)
            → HoldsKeyedMessage self.old hash key message → length result ≡ digest_len hash }
        ensures started { (hash : Hash) (key message : List ℕ)
            → HoldsKeyedMessage self.old hash key message → HoldsKeyedMessage self.new hash key [] }
    {
        let inner_digest = self.inner.finish();
        self.inner = self.inner_start.copied();
        let mut outer = self.outer_start.copied();
        outer.update(inner_digest.as_slice());
        outer.finish()
    }

    /// Whether these are the bytes of the message's code, all of them and no more. It looks at every
    /// byte before it answers. The value is then as at its start.
    pub fn compare(&mut self, tag: &[u8]) -> bool
        ensures same { (hash : Hash) (key message : List ℕ)
            → HoldsKeyedMessage self.old hash key message
            → (IsTrue result ↔ (tag.now ≡ hmac_of hash key message)) }
        ensures started { (hash : Hash) (key message : List ℕ)
            → HoldsKeyedMessage self.old hash key message → HoldsKeyedMessage self.new hash key [] }
    {
        let expected = self.finish();
        is_same(tag, expected.as_slice())
    }
}

/// A clone goes on from the same message under the same key, and never fails.
impl Clone for Mac {
    ghost is_clone = { λ x y. y ≡ x };

    ghost is_infallible = { λ _. ⊤ };

    fn clone(&self) -> Result<Mac, AllocError> {
        Ok(Mac {
            inner: self.inner.clone()?,
            inner_start: self.inner_start.clone()?,
            outer_start: self.outer_start.clone()?,
        })
    }
}

// The key, or its digest where it is longer than a block, and zeros after it (FIPS 198-1 section 4,
// steps 1 to 3).
#[tactic(auto, using(crate::proofs::BlockLemmas::short_key_block))]
fn key_block(hash: Hash, key: &[u8]) -> [u8; MAX_BLOCK_LEN]
    ensures { take (block_len hash) result ≡ block_key hash key.now }
{
    if key.len() > hash.block_len() {
        let mut digester = digest(hash);
        digester.update(key);
        fill_with_zeros(digester.finish().as_slice())
    } else {
        fill_with_zeros(key)
    }
}

fn fill_with_zeros(bytes: &[u8]) -> [u8; MAX_BLOCK_LEN]
    requires { length bytes.now ≤ MAX_BLOCK_LEN }
    ensures { result ≡ zero_filled MAX_BLOCK_LEN bytes.now }
{
    let mut block = [0; MAX_BLOCK_LEN];
    block[..bytes.len()].copy_from_slice(bytes);
    block
}

// A digester that has taken in a block, each byte of it xored with `pad`.
fn begin(hash: Hash, block: &[u8; MAX_BLOCK_LEN], pad: u8) -> Digester
    ensures { HoldsMessage result hash (xor_each pad (take (block_len hash) block.now)) }
{
    let mut padded = *block;
    for byte in padded.iter_mut() {
        *byte ^= pad;
    }
    let mut digester = digest(hash);
    digester.update(&padded[..hash.block_len()]);
    digester
}

/// Whether two lists of bytes are the same. It looks at every byte before it answers, so that the time taken doesn't
/// tell where the first difference is.
pub fn is_same(left: &[u8], right: &[u8]) -> bool
    ensures { IsTrue result ↔ (left.now ≡ right.now) }
{
    let mut difference = 0;
    for i in 0..left.len().min(right.len()) {
        difference |= left[i] ^ right[i];
    }
    difference == 0 && left.len() == right.len()
}
