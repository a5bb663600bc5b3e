//! The cipher byte by byte, with no table: what the fast body is compared with.

ghost use Rattle.std.specs.Prelude.{◌≤◌, ◌<◌, ◌≡◌, ◌+◌, ◌*◌, length};

fn xtimes(b: u8) -> u8 {
    let doubled = (b & 0x7f) * 2;
    if b < 0x80 { doubled } else { doubled ^ 0x1b }
}

fn multiply(mut a: u8, mut b: u8) -> u8 {
    let mut product = 0;
    for _ in 0..8 {
        if a % 2 == 1 {
            product ^= b;
        }
        a /= 2;
        b = xtimes(b);
    }
    product
}

fn substitute(b: u8) -> u8 {
    let mut inverse = 1;
    for _ in 0..254 {
        inverse = multiply(inverse, b);
    }
    inverse
        ^ inverse.rotate_left(1)
        ^ inverse.rotate_left(2)
        ^ inverse.rotate_left(3)
        ^ inverse.rotate_left(4)
        ^ 0x63
}

// The bytes of the round keys.
fn round_keys(key: &[u8], rounds: usize) -> [u8; 240]
    requires some { 4 ≤ length key.now }
    requires fits { length key.now ≤ 32 }
    requires most { rounds ≤ 14 }
{
    let mut keys = [0; 240];
    for (i, b) in key.iter().enumerate() {
        keys[i] = *b;
    }
    let length = key.len();
    let mut constant = 1;
    for i in key.len()..16 * (rounds + 1) {
        let mut byte = keys[i - 4];
        let place = i % length;
        if place < 4 {
            let turned = if place == 3 { i - 7 } else { i - 3 };
            byte = substitute(keys[turned]);
            if place == 0 {
                byte ^= constant;
                constant = xtimes(constant);
            }
        } else if length == 32 && place / 4 == 4 {
            byte = substitute(byte);
        }
        keys[i] = keys[i - length] ^ byte;
    }
    keys
}

fn add_round_key(state: &mut [u8; 16], keys: &[u8; 240], round: usize)
    requires { round ≤ 14 }
{
    for i in 0..16 {
        state[i] ^= keys[16 * round + i];
    }
}

fn sub_bytes_and_shift_rows(state: &mut [u8; 16]) {
    let old = *state;
    for i in 0..16 {
        state[i] = substitute(old[(i + 4 * (i % 4)) % 16]);
    }
}

fn mix_columns(state: &mut [u8; 16]) {
    let old = *state;
    for i in 0..16 {
        let column = 4 * (i / 4);
        let row = i % 4;
        state[i] = multiply(2, old[column + row])
            ^ multiply(3, old[column + (row + 1) % 4])
            ^ old[column + (row + 2) % 4]
            ^ old[column + (row + 3) % 4];
    }
}

/// Encrypts a block, step by step.
pub fn encrypt_block(key: &[u8], block: &mut [u8; 16])
    requires some { 4 ≤ length key.now }
    requires fits { length key.now ≤ 32 }
{
    let rounds = key.len() / 4 + 6;
    let keys = round_keys(key, rounds);
    add_round_key(block, &keys, 0);
    for round in 1..rounds {
        sub_bytes_and_shift_rows(block);
        mix_columns(block);
        add_round_key(block, &keys, round);
    }
    sub_bytes_and_shift_rows(block);
    add_round_key(block, &keys, rounds);
}
