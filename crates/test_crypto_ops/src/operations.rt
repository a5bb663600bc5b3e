//! Published vectors in pieces, what `new` refuses, and each call once.

use crate::about::is_new;
use crate::calls::{Do, Kind, NO_BYTES, Row, Told, check, go_apart, new, run};
use crate::vectors::{
    ABC, AES_KEY, CBC, CBC_1, CBC_VECTOR, COUNTER, CTR, CTR_5, ECB, HMAC_CODE, HMAC_KEY, LARGEST,
    PLAIN, PLAIN_1, PLAIN_5, PLAIN_7, PLAIN_BEHIND_7, PLAIN_FEW, PLAIN_REST, SHORT_CODE,
    WRONG_CODE,
};
use crypto_ops::{OpAnswer, Operation};
use std::alloc::Global;
use std::process::Abort;
use tee_base::{Bytes, keys};

const ECB_ENCRYPTION: Kind = (keys::AES_ECB, keys::MODE_ENCRYPT, 256);

const ECB_DECRYPTION: Kind = (keys::AES_ECB, keys::MODE_DECRYPT, 256);

const CBC_ENCRYPTION: Kind = (keys::AES_CBC, keys::MODE_ENCRYPT, 256);

const CBC_DECRYPTION: Kind = (keys::AES_CBC, keys::MODE_DECRYPT, 256);

const CTR_ENCRYPTION: Kind = (keys::AES_CTR, keys::MODE_ENCRYPT, 256);

const CTR_DECRYPTION: Kind = (keys::AES_CTR, keys::MODE_DECRYPT, 256);

const CODE: Kind = (keys::HMAC_SHA256, keys::MODE_MAC, 1_024);

const DIGEST: Kind = (keys::SHA256, keys::MODE_DIGEST, 0);

/// A cipher and an authentication code get their keys.
const AES_KEYED: Row<'static> = (
    Do::SetKey(keys::KIND_AES, keys::USAGE_NEW, AES_KEY),
    Told::Done,
);

const CODE_KEYED: Row<'static> = (
    Do::SetKey(keys::KIND_HMAC_SHA256, keys::USAGE_MAC, HMAC_KEY),
    Told::Done,
);

/// They begin.
const CBC_BEGUN: Row<'static> = (Do::CipherInit(CBC_VECTOR), Told::Done);

const CTR_BEGUN: Row<'static> = (Do::CipherInit(COUNTER), Told::Done);

const CODE_BEGUN: Row<'static> = (Do::MacInit, Told::Done);

/// Where a piece begins and ends.
type Range = (usize, usize);

/// A piece of some bytes.
fn part<'a>(rt: &impl Abort, bytes: &'a [u8], range: Range) -> &'a [u8] {
    let (from, to) = range;
    assert!(rt; from <= to && to <= bytes.len());
    &bytes[from..to]
}

/// Takes a piece with this room.
fn update(
    rt: &impl Abort,
    alloc: Global,
    operation: &mut Operation,
    piece: &[u8],
    room: u32,
    wanted: Told<'_>,
) {
    let row = (Do::CipherUpdate(piece, room), wanted);
    check(rt, alloc, operation, &[row]);
}

/// Takes a piece, which gives this one, with a room too short by one before, where it gives bytes.
fn take_piece(
    rt: &impl Abort,
    alloc: Global,
    operation: &mut Operation,
    piece: &[u8],
    given: &[u8],
) {
    assert!(rt; given.len() <= 64);
    let room = given.len() as u32;
    if 0 < room {
        update(rt, alloc, operation, piece, 0, Told::Short(room));
        update(rt, alloc, operation, piece, room - 1, Told::Short(room));
    }
    update(rt, alloc, operation, piece, room, Told::Bytes(given));
}

/// Pieces of 1, 15, 16, 17 and 15 bytes, and the pieces that they give where whole blocks come out, and where each byte
/// does.
type Piece = (Range, Range);

const BY_BLOCKS: &[Piece] = &[
    ((0, 1), (0, 0)),
    ((1, 16), (0, 16)),
    ((16, 32), (16, 32)),
    ((32, 49), (32, 48)),
    ((49, 64), (48, 64)),
];

const BY_BYTES: &[Piece] = &[
    ((0, 1), (0, 1)),
    ((1, 16), (1, 16)),
    ((16, 32), (16, 32)),
    ((32, 49), (32, 49)),
    ((49, 64), (49, 64)),
];

/// The pieces in order.
fn take_pieces(
    rt: &impl Abort,
    alloc: Global,
    operation: &mut Operation,
    pieces: &[Piece],
    input: &[u8],
    output: &[u8],
) {
    for (taken, given) in pieces {
        let piece = part(rt, input, *taken);
        take_piece(rt, alloc, operation, piece, part(rt, output, *given));
    }
}

/// A cipher, its vector, the pieces, the input and the output.
type Vector = (
    Kind,
    &'static [u8],
    &'static [Piece],
    &'static [u8],
    &'static [u8],
);

const CIPHERS: &[Vector] = &[
    (ECB_ENCRYPTION, &[], BY_BLOCKS, PLAIN, ECB),
    (ECB_DECRYPTION, &[], BY_BLOCKS, ECB, PLAIN),
    (CBC_ENCRYPTION, CBC_VECTOR, BY_BLOCKS, PLAIN, CBC),
    (CBC_DECRYPTION, CBC_VECTOR, BY_BLOCKS, CBC, PLAIN),
    (CTR_ENCRYPTION, COUNTER, BY_BYTES, PLAIN, CTR),
    (CTR_DECRYPTION, COUNTER, BY_BYTES, CTR, PLAIN),
];

/// In pieces, then the whole at once.
fn check_vector(rt: &impl Abort, alloc: Global, operation: &mut Operation, vector: &Vector) {
    const END: &[Row] = &[
        (Do::Info, Told::About(256, 256, true)),
        (Do::CipherFinal(&[], 0), NO_BYTES),
        (Do::Info, Told::About(256, 256, false)),
    ];
    let (_, iv, pieces, input, output) = *vector;
    let begun = (Do::CipherInit(iv), Told::Done);
    check(rt, alloc, operation, &[AES_KEYED, begun]);
    take_pieces(rt, alloc, operation, pieces, input, output);
    check(rt, alloc, operation, END);
    let whole = [begun, (Do::CipherFinal(input, 64), Told::Bytes(output))];
    check(rt, alloc, operation, &whole);
}

#[test]
fn ciphers_in_pieces(rt: HostRuntime) {
    for vector in CIPHERS {
        let mut operation = new(&rt, vector.0);
        check_vector(&rt, rt.alloc(), &mut operation, vector);
        drop(operation);
    }
}

#[test]
fn part_of_a_block_is_misuse_at_the_end(rt: HostRuntime) {
    const ROWS: &[Row] = &[
        AES_KEYED,
        CBC_BEGUN,
        (Do::CipherUpdate(PLAIN_1, 0), NO_BYTES),
        (Do::CipherFinal(PLAIN_FEW, 64), Told::Misuse),
        (Do::CipherFinal(PLAIN_REST, 15), Told::Short(16)),
        (Do::CipherFinal(PLAIN_REST, 16), Told::Bytes(CBC_1)),
        (Do::CipherFinal(PLAIN, 64), Told::Misuse),
    ];
    run(&rt, rt.alloc(), CBC_ENCRYPTION, ROWS);
}

#[test]
fn part_of_a_block_ends_a_counter(rt: HostRuntime) {
    const ROWS: &[Row] = &[
        AES_KEYED,
        CTR_BEGUN,
        (Do::CipherFinal(PLAIN_5, 5), Told::Bytes(CTR_5)),
    ];
    run(&rt, rt.alloc(), CTR_ENCRYPTION, ROWS);
}

/// The front of the message of the code, the rest of it, and the whole.
const FRONT: &[u8] = &[0xcd; 20];

const REST: &[u8] = &[0xcd; 30];

const MESSAGE: &[u8] = &[0xcd; 50];

#[test]
fn codes(rt: HostRuntime) {
    const ROWS: &[Row] = &[
        CODE_KEYED,
        CODE_BEGUN,
        (Do::MacUpdate(FRONT), Told::Done),
        (Do::MacFinal(REST, 31), Told::Short(32)),
        (Do::MacFinal(REST, 32), Told::Bytes(HMAC_CODE)),
        (Do::MacUpdate(&[]), Told::Misuse),
        (Do::MacInit, Told::Done),
        (Do::Compare(MESSAGE, HMAC_CODE), Told::Done),
        (Do::MacInit, Told::Done),
        (Do::Compare(MESSAGE, WRONG_CODE), Told::MacInvalid),
        (Do::Info, Told::About(200, 1_024, false)),
        (Do::Compare(MESSAGE, HMAC_CODE), Told::Misuse),
        (Do::MacInit, Told::Done),
        (Do::Compare(MESSAGE, SHORT_CODE), Told::MacInvalid),
    ];
    run(&rt, rt.alloc(), CODE, ROWS);
}

#[test]
fn digests(rt: HostRuntime) {
    const ROWS: &[Row] = &[
        (Do::DigestUpdate(b"a"), Told::Done),
        (Do::Info, Told::About(0, 0, true)),
        (Do::DigestFinal(b"bc", 31), Told::Short(32)),
        (Do::DigestFinal(b"bc", 32), Told::Bytes(ABC)),
        (Do::Info, Told::About(0, 0, false)),
        (Do::DigestFinal(b"abc", 64), Told::Bytes(ABC)),
        (Do::DigestUpdate(b"x"), Told::Done),
        (Do::Reset, Told::Done),
        (Do::DigestFinal(b"abc", 32), Told::Bytes(ABC)),
        (Do::ClearKey, Told::Misuse),
    ];
    run(&rt, rt.alloc(), DIGEST, ROWS);
}

/// Has a new operation take over another, which is misuse.
fn check_no_copy(rt: &impl Abort, from: &Operation, kind: Kind) {
    let mut copy = new(rt, kind);
    let answer = copy.copy_from(from);
    drop(copy);
    assert!(rt; matches!(answer, Err(OpAnswer::Misuse)));
}

#[test]
fn copies_of_codes_go_on_apart(rt: HostRuntime) {
    const BEGUN: &[Row] = &[CODE_KEYED, CODE_BEGUN, (Do::MacUpdate(FRONT), Told::Done)];
    const COPIED: &[Row] = &[
        (Do::Info, Told::About(200, 200, true)),
        (Do::Compare(REST, HMAC_CODE), Told::Done),
    ];
    const ENDED: &[Row] = &[(Do::Compare(REST, HMAC_CODE), Told::Done)];
    const SMALL: Kind = (keys::HMAC_SHA256, keys::MODE_MAC, 200);
    const SMALLER: Kind = (keys::HMAC_SHA256, keys::MODE_MAC, 192);
    let mut operation = new(&rt, CODE);
    go_apart(&rt, rt.alloc(), &mut operation, BEGUN, SMALL, COPIED, ENDED);
    check_no_copy(&rt, &operation, SMALLER);
    check_no_copy(&rt, &operation, DIGEST);
    drop(operation);
}

#[test]
fn copies_of_ciphers_go_on_apart(rt: HostRuntime) {
    const BEGUN: &[Row] = &[
        AES_KEYED,
        CBC_BEGUN,
        (Do::CipherUpdate(PLAIN_7, 0), NO_BYTES),
    ];
    const ENDED: &[Row] = &[(Do::CipherFinal(PLAIN_BEHIND_7, 64), Told::Bytes(CBC))];
    const SAME: Kind = CBC_ENCRYPTION;
    let mut operation = new(&rt, CBC_ENCRYPTION);
    go_apart(&rt, rt.alloc(), &mut operation, BEGUN, SAME, ENDED, ENDED);
    drop(operation);
}

const AES: u32 = keys::KIND_AES;

const DECRYPT: u32 = keys::USAGE_DECRYPT;

#[test]
fn keys_come_and_go(rt: HostRuntime) {
    const ROWS: &[Row] = &[
        (Do::Reset, Told::Misuse),
        (Do::CipherInit(CBC_VECTOR), Told::Misuse),
        (
            Do::SetKey(keys::KIND_HMAC_SHA256, DECRYPT, &[7; 24]),
            Told::Misuse,
        ),
        (
            Do::SetKey(AES, keys::USAGE_ENCRYPT | keys::USAGE_MAC, &[7; 24]),
            Told::Misuse,
        ),
        (Do::SetKey(AES, DECRYPT, &[7; 20]), Told::Misuse),
        (Do::SetKey(AES, DECRYPT, &[7; 32]), Told::Misuse),
        (Do::SetKey(AES, DECRYPT, &[]), Told::Misuse),
        (Do::SetKey(keys::KIND_DATA, DECRYPT, &[]), Told::Misuse),
        (Do::SetKey(AES, DECRYPT, &[7; 24]), Told::Done),
        (Do::Info, Told::About(192, 192, false)),
        (Do::SetKey(AES, DECRYPT, &[7; 16]), Told::Done),
        (Do::Info, Told::About(128, 192, false)),
        (Do::Reset, Told::Done),
        (Do::CipherInit(&[]), Told::Misuse),
        (Do::MayChangeKey, Told::May(true)),
        (Do::CipherInit(CBC_VECTOR), Told::Done),
        (Do::MayChangeKey, Told::May(false)),
        (Do::SetKey(AES, DECRYPT, &[7; 16]), Told::Misuse),
        (Do::ClearKey, Told::Misuse),
        (Do::MacInit, Told::Misuse),
        (Do::DigestUpdate(&[]), Told::Misuse),
        (Do::Reset, Told::Done),
        (Do::ClearKey, Told::Done),
        (Do::Info, Told::About(0, 192, false)),
    ];
    const KIND: Kind = (keys::AES_CBC, keys::MODE_DECRYPT, 192);
    run(&rt, rt.alloc(), KIND, ROWS);
}

/// Which of the modes 0 to 5 each algorithm has, and whether the greatest sizes 0, 128, 192, 256, 1,016 and 1,032 fit.
const TABLE: &[(u32, [bool; 6], [bool; 6])] = &[
    (
        keys::AES_ECB,
        [true, true, false, false, false, false],
        [false, true, true, true, false, false],
    ),
    (
        keys::AES_CBC,
        [true, true, false, false, false, false],
        [false, true, true, true, false, false],
    ),
    (
        keys::AES_CTR,
        [true, true, false, false, false, false],
        [false, true, true, true, false, false],
    ),
    (
        keys::AES_GCM,
        [true, true, false, false, false, false],
        [false, true, true, true, false, false],
    ),
    (
        keys::HMAC_SHA256,
        [false, false, false, false, true, false],
        [false, false, true, true, true, false],
    ),
    (
        keys::HMAC_SHA384,
        [false, false, false, false, true, false],
        [false, false, false, true, true, false],
    ),
    (
        keys::HMAC_SHA512,
        [false, false, false, false, true, false],
        [false, false, false, true, true, false],
    ),
    (
        keys::AES_CMAC,
        [false, false, false, false, true, false],
        [false, true, true, true, false, false],
    ),
    (
        keys::SHA256,
        [false, false, false, false, false, true],
        [true, true, true, true, true, true],
    ),
    (
        keys::SHA384,
        [false, false, false, false, false, true],
        [true, true, true, true, true, true],
    ),
    (
        keys::SHA512,
        [false, false, false, false, false, true],
        [true, true, true, true, true, true],
    ),
    (0, [false; 6], [true; 6]),
    (0x1000_0410, [false; 6], [true; 6]),
];

const SIZES: [u32; 6] = [0, 128, 192, 256, 1_016, 1_032];

/// Whether a new operation is had where it fits, and is refused elsewhere.
fn comes_new(alg: u32, mode: u32, max_bits: u32, fits: bool) -> bool {
    match Operation::new(alg, mode, max_bits) {
        Ok(operation) => {
            let about = operation.info();
            drop(operation);
            fits && is_new(&about, alg, mode, max_bits)
        }
        Err(answer) => !fits && answer == OpAnswer::NotSupported,
    }
}

/// Asks for a new operation of each greatest size, and says whether the wanted come of it.
fn come_new(alg: u32, mode: u32, has_mode: bool, sizes: &[bool; 6]) -> bool {
    let mut holds = true;
    for i in 0..6 {
        holds = holds && comes_new(alg, mode, SIZES[i], has_mode && sizes[i]);
    }
    holds
}

#[test]
fn what_new_refuses(rt: HostRuntime) {
    for (alg, modes, sizes) in TABLE {
        for mode in 0..6u32 {
            let holds = come_new(*alg, mode, modes[mode as usize], sizes);
            let number = *alg;
            assert!(rt; holds, "{number:x} in mode {mode}");
        }
    }
}

/// Encrypts as many bytes as one ask may have.
fn largest(rt: &impl Abort, alloc: Global, operation: &mut Operation, zeros: &[u8]) -> Bytes {
    check(rt, alloc, operation, &[AES_KEYED, CTR_BEGUN]);
    let text = operation.cipher_update(alloc, zeros, 524_288);
    text.expect(rt, "a text")
}

/// Compares the size and the digest of what the largest ask gave.
fn check_digest(rt: &impl Abort, alloc: Global, text: &[u8]) {
    assert!(rt; text.len() == 524_288);
    let rows = [(Do::DigestFinal(text, 32), Told::Bytes(LARGEST))];
    run(rt, alloc, DIGEST, &rows);
}

/// So many zeros.
fn zeros(rt: &impl Abort, alloc: Global, count: usize) -> Vec<u8> {
    vec![in alloc; 0u8; count].expect(rt, "zeros")
}

#[test]
fn one_ask_of_the_largest_size(rt: HostRuntime) {
    let zeros = zeros(&rt, rt.alloc(), 524_288);
    let mut operation = new(&rt, CTR_ENCRYPTION);
    let text = largest(&rt, rt.alloc(), &mut operation, zeros.as_slice());
    drop(operation);
    check_digest(&rt, rt.alloc(), text.as_slice());
}

/// A cipher takes neither so long a text nor so much room.
fn check_long_text(rt: &impl Abort, alloc: Global, long: &[u8]) {
    let rows = [
        AES_KEYED,
        CTR_BEGUN,
        (Do::CipherUpdate(&[], 524_289), Told::Misuse),
        (Do::CipherFinal(long, 0), Told::Misuse),
    ];
    run(rt, alloc, CTR_ENCRYPTION, &rows);
}

/// An authentication code takes neither so long a message nor so long a code.
fn check_long_message(rt: &impl Abort, alloc: Global, long: &[u8]) {
    let rows = [
        CODE_KEYED,
        CODE_BEGUN,
        (Do::MacUpdate(long), Told::Misuse),
        (Do::Compare(&[], long), Told::Misuse),
        (Do::Info, Told::About(200, 1_024, true)),
    ];
    run(rt, alloc, CODE, &rows);
}

#[test]
fn too_much_is_misuse(rt: HostRuntime) {
    let long = zeros(&rt, rt.alloc(), 524_289);
    check_long_text(&rt, rt.alloc(), long.as_slice());
    check_long_message(&rt, rt.alloc(), long.as_slice());
}
