// The rounds of the cipher over a block as four words, a word for each column of the state.

ghost use Rattle.std.specs.Prelude.{◌≡◌, ◌+◌, ◌*◌, ◌^◌, ◌<◌, [], ◌∷◌, slice_index};
ghost use Rattle.aes_core.specs.Columns.{mixed_0, mixed_1, mixed_2, mixed_3, placed_0, placed_1, placed_2, placed_3};
ghost use Rattle.aes_core.specs.Field.{substitute, inverse_substitute};
ghost use Rattle.aes_core.specs.KeyExpansion.{round_key};
ghost use Rattle.aes_core.specs.Transformations.{sub_bytes, shift_rows, mix_columns, add_round_key, inv_sub_bytes, inv_shift_rows, inv_mix_columns};
ghost use Rattle.aes_core.specs.Words.{word_bytes, block_bytes, add_columns};

use crate::columns::{
    decrypt_column, encrypt_0, encrypt_1, encrypt_2, encrypt_3, inverse_substitute, last_0, last_1,
    last_2, last_3,
};

/// The word of four bytes, highest first.
#[inline(always)]
fn word(a: u8, b: u8, c: u8, d: u8) -> u32
    ensures { word_bytes result ≡ a ∷ b ∷ c ∷ d ∷ [] }
{
    u32::from_be_bytes([a, b, c, d])
}

/// The word of four bytes substituted back.
#[inline(always)]
fn inverse_substitute_word(a: u8, b: u8, c: u8, d: u8) -> u32
    ensures { word_bytes result
        ≡ inverse_substitute a ∷ inverse_substitute b ∷ inverse_substitute c ∷ inverse_substitute d
        ∷ [] }
{
    word(
        inverse_substitute(a),
        inverse_substitute(b),
        inverse_substitute(c),
        inverse_substitute(d),
    )
}

/// The four words of a block.
#[inline(always)]
pub(crate) fn load(block: &[u8; 16]) -> [u32; 4]
    ensures { block_bytes result ≡ block.now }
{
    let number = u128::from_be_bytes(*block);
    [
        (number >> 96) as u32,
        (number >> 64 & 0xffff_ffff) as u32,
        (number >> 32 & 0xffff_ffff) as u32,
        (number & 0xffff_ffff) as u32,
    ]
}

#[inline(always)]
fn pair(high: u32, low: u32) -> u64
    ensures { result ≡ high * 2 ^ 32 + low }
{
    u64::from(high) << 32 | u64::from(low)
}

/// The block of four words.
#[inline(always)]
pub(crate) fn store(words: [u32; 4]) -> [u8; 16]
    ensures { result ≡ block_bytes words }
{
    let high = pair(words[0], words[1]).to_be_bytes();
    let low = pair(words[2], words[3]).to_be_bytes();
    let mut block = [0; 16];
    block[..8].copy_from_slice(&high);
    block[8..].copy_from_slice(&low);
    block
}

/// The words of the round key of number `round`.
#[inline(always)]
pub(crate) fn key_of_round(words: &[u32; 60], round: usize) -> [u32; 4]
    requires { round < 15 }
    ensures { block_bytes result ≡ round_key words.now round }
{
    let at = 4 * round;
    [words[at], words[at + 1], words[at + 2], words[at + 3]]
}

#[inline(always)]
pub(crate) fn add_key(state: [u32; 4], key: [u32; 4]) -> [u32; 4]
    ensures { block_bytes result ≡ add_round_key (block_bytes state) (block_bytes key) }
{
    [
        state[0] ^ key[0],
        state[1] ^ key[1],
        state[2] ^ key[2],
        state[3] ^ key[3],
    ]
}

/// The columns with what the bytes of a word add to them in a round, turned by one place: the first is the last.
#[inline(always)]
fn with_shares(columns: [u32; 4], x: u32) -> [u32; 4]
    ensures first { word_bytes (slice_index result 3)
        ≡ add_columns (word_bytes (slice_index columns 0))
        (mixed_0 (substitute (slice_index (word_bytes x) 0))) }
    ensures second { word_bytes (slice_index result 0)
        ≡ add_columns (word_bytes (slice_index columns 1))
        (mixed_3 (substitute (slice_index (word_bytes x) 3))) }
    ensures third { word_bytes (slice_index result 1)
        ≡ add_columns (word_bytes (slice_index columns 2))
        (mixed_2 (substitute (slice_index (word_bytes x) 2))) }
    ensures fourth { word_bytes (slice_index result 2)
        ≡ add_columns (word_bytes (slice_index columns 3))
        (mixed_1 (substitute (slice_index (word_bytes x) 1))) }
{
    let b = x.to_be_bytes();
    let second = columns[1] ^ encrypt_3(b[3]);
    let third = columns[2] ^ encrypt_2(b[2]);
    let first = columns[0] ^ encrypt_0(b[0]);
    let fourth = columns[3] ^ encrypt_1(b[1]);
    [second, third, fourth, first]
}

/// A round of the cipher.
#[inline(always)]
pub(crate) fn encrypt_round(state: [u32; 4], key: [u32; 4]) -> [u32; 4]
    ensures { block_bytes result
        ≡ add_round_key (mix_columns (shift_rows (sub_bytes (block_bytes state))))
        (block_bytes key) }
{
    let one = with_shares(key, state[0]);
    let two = with_shares(one, state[1]);
    let three = with_shares(two, state[2]);
    with_shares(three, state[3])
}

/// The columns with the bytes of a word substituted, in the last round, turned by one place.
#[inline(always)]
fn with_placed(columns: [u32; 4], x: u32) -> [u32; 4]
    ensures first { word_bytes (slice_index result 3)
        ≡ add_columns (word_bytes (slice_index columns 0))
        (placed_0 (substitute (slice_index (word_bytes x) 0))) }
    ensures second { word_bytes (slice_index result 0)
        ≡ add_columns (word_bytes (slice_index columns 1))
        (placed_3 (substitute (slice_index (word_bytes x) 3))) }
    ensures third { word_bytes (slice_index result 1)
        ≡ add_columns (word_bytes (slice_index columns 2))
        (placed_2 (substitute (slice_index (word_bytes x) 2))) }
    ensures fourth { word_bytes (slice_index result 2)
        ≡ add_columns (word_bytes (slice_index columns 3))
        (placed_1 (substitute (slice_index (word_bytes x) 1))) }
{
    let b = x.to_be_bytes();
    let second = columns[1] ^ last_3(b[3]);
    let third = columns[2] ^ last_2(b[2]);
    let first = columns[0] ^ last_0(b[0]);
    let fourth = columns[3] ^ last_1(b[1]);
    [second, third, fourth, first]
}

/// The last round of the cipher.
#[inline(always)]
pub(crate) fn last_round(state: [u32; 4], key: [u32; 4]) -> [u32; 4]
    ensures { block_bytes result
        ≡ add_round_key (shift_rows (sub_bytes (block_bytes state))) (block_bytes key) }
{
    let one = with_placed(key, state[0]);
    let two = with_placed(one, state[1]);
    let three = with_placed(two, state[2]);
    with_placed(three, state[3])
}

/// A round of the inverse cipher, where `key` has been through InvMixColumns.
#[inline(always)]
pub(crate) fn decrypt_round(state: [u32; 4], key: [u32; 4]) -> [u32; 4]
    ensures { block_bytes result
        ≡ add_round_key (inv_mix_columns (inv_sub_bytes (inv_shift_rows (block_bytes state))))
        (block_bytes key) }
{
    let a = state[0].to_be_bytes();
    let b = state[1].to_be_bytes();
    let c = state[2].to_be_bytes();
    let d = state[3].to_be_bytes();
    let first = decrypt_column(a[0], d[1], c[2], b[3], key[0]);
    let second = decrypt_column(b[0], a[1], d[2], c[3], key[1]);
    let third = decrypt_column(c[0], b[1], a[2], d[3], key[2]);
    let fourth = decrypt_column(d[0], c[1], b[2], a[3], key[3]);
    [first, second, third, fourth]
}

/// The last round of the inverse cipher, before its key.
#[inline(always)]
pub(crate) fn shift_and_substitute_back(state: [u32; 4]) -> [u32; 4]
    ensures { block_bytes result ≡ inv_sub_bytes (inv_shift_rows (block_bytes state)) }
{
    let a = state[0].to_be_bytes();
    let b = state[1].to_be_bytes();
    let c = state[2].to_be_bytes();
    let d = state[3].to_be_bytes();
    let first = inverse_substitute_word(a[0], d[1], c[2], b[3]);
    let second = inverse_substitute_word(b[0], a[1], d[2], c[3]);
    let third = inverse_substitute_word(c[0], b[1], a[2], d[3]);
    let fourth = inverse_substitute_word(d[0], c[1], b[2], a[3]);
    [first, second, third, fourth]
}
