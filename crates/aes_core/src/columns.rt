// One column of a round: a table for each of its four bytes, and the word of the round key.

ghost use Rattle.std.specs.Prelude.{◌≡◌, ℕ, bit_xor};
ghost use Rattle.aes_core.specs.Columns.{mixed_0, mixed_1, mixed_2, mixed_3, placed_0, placed_1, placed_2, placed_3, inv_mixed_0, inv_mixed_1, inv_mixed_2, inv_mixed_3};
ghost use Rattle.aes_core.specs.Field.{substitute, inverse_substitute};
ghost use Rattle.aes_core.specs.KeyExpansion.{inv_mixed_word};
ghost use Rattle.aes_core.specs.Transformations.{mix_column, inv_mix_column};
ghost use Rattle.aes_core.specs.Words.{word_bytes, add_columns};

use crate::tables::{DECRYPT, ENCRYPT, INVERSE_SUBSTITUTE, LAST, SUBSTITUTE};

#[inline(always)]
pub(crate) fn substitute(x: u8) -> u8
    ensures { result ≡ substitute x }
{
    SUBSTITUTE[x as usize]
}

#[inline(always)]
pub(crate) fn inverse_substitute(x: u8) -> u8
    ensures { result ≡ inverse_substitute x }
{
    INVERSE_SUBSTITUTE[x as usize]
}

#[inline(always)]
pub(crate) fn encrypt_0(x: u8) -> u32
    ensures { word_bytes result ≡ mixed_0 (substitute x) }
{
    ENCRYPT[x as usize]
}

#[inline(always)]
pub(crate) fn encrypt_1(x: u8) -> u32
    ensures { word_bytes result ≡ mixed_1 (substitute x) }
{
    ENCRYPT[256 + x as usize]
}

#[inline(always)]
pub(crate) fn encrypt_2(x: u8) -> u32
    ensures { word_bytes result ≡ mixed_2 (substitute x) }
{
    ENCRYPT[512 + x as usize]
}

#[inline(always)]
pub(crate) fn encrypt_3(x: u8) -> u32
    ensures { word_bytes result ≡ mixed_3 (substitute x) }
{
    ENCRYPT[768 + x as usize]
}

#[inline(always)]
pub(crate) fn last_0(x: u8) -> u32
    ensures { word_bytes result ≡ placed_0 (substitute x) }
{
    LAST[x as usize]
}

#[inline(always)]
pub(crate) fn last_1(x: u8) -> u32
    ensures { word_bytes result ≡ placed_1 (substitute x) }
{
    LAST[256 + x as usize]
}

#[inline(always)]
pub(crate) fn last_2(x: u8) -> u32
    ensures { word_bytes result ≡ placed_2 (substitute x) }
{
    LAST[512 + x as usize]
}

#[inline(always)]
pub(crate) fn last_3(x: u8) -> u32
    ensures { word_bytes result ≡ placed_3 (substitute x) }
{
    LAST[768 + x as usize]
}

#[inline(always)]
fn decrypt_0(x: u8) -> u32
    ensures { word_bytes result ≡ inv_mixed_0 (inverse_substitute x) }
{
    DECRYPT[x as usize]
}

#[inline(always)]
fn decrypt_1(x: u8) -> u32
    ensures { word_bytes result ≡ inv_mixed_1 (inverse_substitute x) }
{
    DECRYPT[256 + x as usize]
}

#[inline(always)]
fn decrypt_2(x: u8) -> u32
    ensures { word_bytes result ≡ inv_mixed_2 (inverse_substitute x) }
{
    DECRYPT[512 + x as usize]
}

#[inline(always)]
fn decrypt_3(x: u8) -> u32
    ensures { word_bytes result ≡ inv_mixed_3 (inverse_substitute x) }
{
    DECRYPT[768 + x as usize]
}

/// A column of an encryption round, from the four bytes that the row shifts bring together.
#[inline(always)]
pub(crate) fn encrypt_column(a: u8, b: u8, c: u8, d: u8, key: u32) -> u32
    ensures { word_bytes result ≡ add_columns
        (mix_column (substitute a) (substitute b) (substitute c) (substitute d)) (word_bytes key) }
{
    encrypt_0(a) ^ encrypt_1(b) ^ encrypt_2(c) ^ encrypt_3(d) ^ key
}

/// A column of an encryption round without what its first byte adds.
pub(crate) fn without_0(b: u8, c: u8, d: u8, key: u32) -> u32
    ensures { (a p : ℕ) → word_bytes p ≡ mixed_0 (substitute a)
        → word_bytes (bit_xor result p) ≡ add_columns
        (mix_column (substitute a) (substitute b) (substitute c) (substitute d)) (word_bytes key) }
{
    encrypt_1(b) ^ encrypt_2(c) ^ encrypt_3(d) ^ key
}

/// A column of an encryption round without what its second byte adds.
pub(crate) fn without_1(a: u8, c: u8, d: u8, key: u32) -> u32
    ensures { (b p : ℕ) → word_bytes p ≡ mixed_1 (substitute b)
        → word_bytes (bit_xor result p) ≡ add_columns
        (mix_column (substitute a) (substitute b) (substitute c) (substitute d)) (word_bytes key) }
{
    encrypt_0(a) ^ encrypt_2(c) ^ encrypt_3(d) ^ key
}

/// A column of an encryption round without what its third byte adds.
pub(crate) fn without_2(a: u8, b: u8, d: u8, key: u32) -> u32
    ensures { (c p : ℕ) → word_bytes p ≡ mixed_2 (substitute c)
        → word_bytes (bit_xor result p) ≡ add_columns
        (mix_column (substitute a) (substitute b) (substitute c) (substitute d)) (word_bytes key) }
{
    encrypt_0(a) ^ encrypt_1(b) ^ encrypt_3(d) ^ key
}

/// A column of an encryption round without what its fourth byte adds.
pub(crate) fn without_3(a: u8, b: u8, c: u8, key: u32) -> u32
    ensures { (d p : ℕ) → word_bytes p ≡ mixed_3 (substitute d)
        → word_bytes (bit_xor result p) ≡ add_columns
        (mix_column (substitute a) (substitute b) (substitute c) (substitute d)) (word_bytes key) }
{
    encrypt_0(a) ^ encrypt_1(b) ^ encrypt_2(c) ^ key
}

/// A column of a decryption round, where `key` has been through InvMixColumns.
#[inline(always)]
pub(crate) fn decrypt_column(a: u8, b: u8, c: u8, d: u8, key: u32) -> u32
    ensures { word_bytes result
        ≡ add_columns (inv_mix_column (inverse_substitute a) (inverse_substitute b)
        (inverse_substitute c) (inverse_substitute d))
        (word_bytes key) }
{
    decrypt_0(a) ^ decrypt_1(b) ^ decrypt_2(c) ^ decrypt_3(d) ^ key
}

/// A word as a column through InvMixColumns (FIPS 197, section 5.3.3).
pub(crate) fn inverse_mixed_word(x: u32) -> u32
    ensures { word_bytes result ≡ inv_mixed_word x }
{
    let b = x.to_be_bytes();
    decrypt_0(substitute(b[0]))
        ^ decrypt_1(substitute(b[1]))
        ^ decrypt_2(substitute(b[2]))
        ^ decrypt_3(substitute(b[3]))
}
