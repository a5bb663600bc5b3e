// Blocks that differ in their last byte alone, as those of counter mode mostly do: what they have in common in the first
// two rounds is computed once.

ghost use Rattle.std.specs.Prelude.{◌≡◌, ◌-◌, ℕ, List};
ghost use Rattle.aes_core.specs.Cipher.{cipher, cipher_rounds};
ghost use Rattle.aes_core.specs.Key.{key_bytes};
ghost use Rattle.aes_core.specs.declared.key.Key.{Key};
ghost use Rattle.aes_core.specs.Shared.{with_last, IsSharedStart};
ghost use Rattle.aes_core.specs.Words.{block_bytes};

use crate::columns::{
    encrypt_0, encrypt_1, encrypt_2, encrypt_3, encrypt_column, without_0, without_1, without_2,
    without_3,
};
use crate::key::Key;
use crate::rounds::{add_key, encrypt_round, key_of_round, last_round, load};

/// The first two rounds of the blocks that differ from one another in their last byte alone.
#[derive(Clone, Copy)]
pub struct SharedStart {
    // What the first round key adds to the last byte.
    pub(crate) last_key: u8,
    // The first column after one round, without what the last byte adds.
    pub(crate) first: u32,
    // The columns after two rounds, without what the first column adds.
    pub(crate) second: [u32; 4],
}

/// What the blocks that differ from this one in their last byte alone have in common. It takes no memory.
pub fn shared_start(key: &Key, block: &[u8; 16]) -> SharedStart
    ensures { IsSharedStart key.now block.now result }
{
    let words = &key.words;
    let plain = load(block);
    let zeroth_key = key_of_round(words, 0);
    let first_key = key_of_round(words, 1);
    let second_key = key_of_round(words, 2);
    let state = add_key(plain, zeroth_key);
    let a = state[0].to_be_bytes();
    let b = state[1].to_be_bytes();
    let c = state[2].to_be_bytes();
    let d = state[3].to_be_bytes();
    let last = zeroth_key[3].to_be_bytes();
    let second = encrypt_column(b[0], c[1], d[2], a[3], first_key[1]).to_be_bytes();
    let third = encrypt_column(c[0], d[1], a[2], b[3], first_key[2]).to_be_bytes();
    let fourth = encrypt_column(d[0], a[1], b[2], c[3], first_key[3]).to_be_bytes();
    SharedStart {
        last_key: last[3],
        first: without_3(a[0], b[1], c[2], first_key[0]),
        second: [
            without_0(second[1], third[2], fourth[3], second_key[0]),
            without_3(second[0], third[1], fourth[2], second_key[1]),
            without_2(third[0], fourth[1], second[3], second_key[2]),
            without_1(fourth[0], second[2], third[3], second_key[3]),
        ],
    }
}

// The state after two rounds.
#[inline(always)]
fn second_round(start: &SharedStart, last: u8) -> [u32; 4]
    ensures { (k : Key) (b : List ℕ) → IsSharedStart k b start.now
        → block_bytes result ≡ cipher_rounds k.words (with_last b last) 2 }
{
    let first = (start.first ^ encrypt_3(last ^ start.last_key)).to_be_bytes();
    [
        start.second[0] ^ encrypt_0(first[0]),
        start.second[1] ^ encrypt_3(first[3]),
        start.second[2] ^ encrypt_2(first[2]),
        start.second[3] ^ encrypt_1(first[1]),
    ]
}

// The state seven rounds later, which is before the last round of the fewest.
#[inline(always)]
fn ninth_round(words: &[u32; 60], second: [u32; 4]) -> [u32; 4]
    ensures { (b : List ℕ) → block_bytes second ≡ cipher_rounds words.now b 2
        → block_bytes result ≡ cipher_rounds words.now b 9 }
{
    let third = encrypt_round(second, key_of_round(words, 3));
    let fourth = encrypt_round(third, key_of_round(words, 4));
    let fifth = encrypt_round(fourth, key_of_round(words, 5));
    let sixth = encrypt_round(fifth, key_of_round(words, 6));
    let seventh = encrypt_round(sixth, key_of_round(words, 7));
    let eighth = encrypt_round(seventh, key_of_round(words, 8));
    encrypt_round(eighth, key_of_round(words, 9))
}

/// The words of the block that the one with this last byte encrypts to, from what it has in common with others. It takes
/// no memory.
#[inline(always)]
pub fn encrypt_shared(key: &Key, start: &SharedStart, last: u8) -> [u32; 4]
    ensures { (b : List ℕ) → IsSharedStart key.now b start.now
        → block_bytes result ≡ cipher (key_bytes key.now) (with_last b last) }
{
    let words = &key.words;
    let rounds = key.rounds;
    let ninth = ninth_round(words, second_round(start, last));
    let mut state = ninth;
    for round in 10..rounds {
        let next = encrypt_round(state, key_of_round(words, round));
        state = next;
    }
    last_round(state, key_of_round(words, rounds))
}
