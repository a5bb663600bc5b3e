// The cipher and its inverse on one block (FIPS 197, sections 5.1 and 5.3.5).

ghost use Rattle.std.specs.Prelude.{◌≡◌};
ghost use Rattle.aes_core.specs.Cipher.{cipher, inv_cipher};
ghost use Rattle.aes_core.specs.Key.{key_bytes};

use crate::key::Key;
use crate::rounds::{
    add_key, decrypt_round, encrypt_round, key_of_round, last_round, load,
    shift_and_substitute_back, store,
};

/// Encrypts a block in place. It takes no memory.
pub fn encrypt_block(key: &Key, block: &mut [u8; 16])
    ensures { block.new ≡ cipher (key_bytes key.now) block.old }
{
    let words = &key.words;
    let rounds = key.rounds;
    let plain = load(block);
    let first = add_key(plain, key_of_round(words, 0));
    let mut state = first;
    for round in 1..rounds {
        let next = encrypt_round(state, key_of_round(words, round));
        state = next;
    }
    let last = last_round(state, key_of_round(words, rounds));
    *block = store(last);
}

/// Decrypts a block in place. It takes no memory.
pub fn decrypt_block(key: &Key, block: &mut [u8; 16])
    ensures { block.new ≡ inv_cipher (key_bytes key.now) block.old }
{
    let rounds = key.rounds;
    let sealed = load(block);
    let first = add_key(sealed, key_of_round(&key.words, rounds));
    let mut state = first;
    for round in 1..rounds {
        let next = decrypt_round(state, key_of_round(&key.inverse_words, rounds - round));
        state = next;
    }
    let mixed = shift_and_substitute_back(state);
    let last = add_key(mixed, key_of_round(&key.words, 0));
    *block = store(last);
}
