//! The vectors of SP 800-38A, appendix F, for a key of 128 bits, whole and in pieces.

use aes_core::{WrongKeyLength, expand};
use aes_modes::{Mode, ModeAnswer, Stream, Way, start};
use std::process::Abort;
use std::test::Fail;

/// The key of 128 bits.
const KEY: [u8; 16] = [
    0x2b, 0x7e, 0x15, 0x16, 0x28, 0xae, 0xd2, 0xa6, 0xab, 0xf7, 0x15, 0x88, 0x09, 0xcf, 0x4f, 0x3c,
];

/// The vector of CBC.
const CBC_VECTOR: [u8; 16] = [
    0x00, 0x01, 0x02, 0x03, 0x04, 0x05, 0x06, 0x07, 0x08, 0x09, 0x0a, 0x0b, 0x0c, 0x0d, 0x0e, 0x0f,
];

/// The first counter block of CTR.
const COUNTER: [u8; 16] = [
    0xf0, 0xf1, 0xf2, 0xf3, 0xf4, 0xf5, 0xf6, 0xf7, 0xf8, 0xf9, 0xfa, 0xfb, 0xfc, 0xfd, 0xfe, 0xff,
];

/// The four blocks of plain text.
const PLAIN: [u8; 64] = [
    0x6b, 0xc1, 0xbe, 0xe2, 0x2e, 0x40, 0x9f, 0x96, 0xe9, 0x3d, 0x7e, 0x11, 0x73, 0x93, 0x17, 0x2a,
    0xae, 0x2d, 0x8a, 0x57, 0x1e, 0x03, 0xac, 0x9c, 0x9e, 0xb7, 0x6f, 0xac, 0x45, 0xaf, 0x8e, 0x51,
    0x30, 0xc8, 0x1c, 0x46, 0xa3, 0x5c, 0xe4, 0x11, 0xe5, 0xfb, 0xc1, 0x19, 0x1a, 0x0a, 0x52, 0xef,
    0xf6, 0x9f, 0x24, 0x45, 0xdf, 0x4f, 0x9b, 0x17, 0xad, 0x2b, 0x41, 0x7b, 0xe6, 0x6c, 0x37, 0x10,
];

/// What ECB makes of them.
const ECB: [u8; 64] = [
    0x3a, 0xd7, 0x7b, 0xb4, 0x0d, 0x7a, 0x36, 0x60, 0xa8, 0x9e, 0xca, 0xf3, 0x24, 0x66, 0xef, 0x97,
    0xf5, 0xd3, 0xd5, 0x85, 0x03, 0xb9, 0x69, 0x9d, 0xe7, 0x85, 0x89, 0x5a, 0x96, 0xfd, 0xba, 0xaf,
    0x43, 0xb1, 0xcd, 0x7f, 0x59, 0x8e, 0xce, 0x23, 0x88, 0x1b, 0x00, 0xe3, 0xed, 0x03, 0x06, 0x88,
    0x7b, 0x0c, 0x78, 0x5e, 0x27, 0xe8, 0xad, 0x3f, 0x82, 0x23, 0x20, 0x71, 0x04, 0x72, 0x5d, 0xd4,
];

/// What CBC makes of them.
const CBC: [u8; 64] = [
    0x76, 0x49, 0xab, 0xac, 0x81, 0x19, 0xb2, 0x46, 0xce, 0xe9, 0x8e, 0x9b, 0x12, 0xe9, 0x19, 0x7d,
    0x50, 0x86, 0xcb, 0x9b, 0x50, 0x72, 0x19, 0xee, 0x95, 0xdb, 0x11, 0x3a, 0x91, 0x76, 0x78, 0xb2,
    0x73, 0xbe, 0xd6, 0xb8, 0xe3, 0xc1, 0x74, 0x3b, 0x71, 0x16, 0xe6, 0x9e, 0x22, 0x22, 0x95, 0x16,
    0x3f, 0xf1, 0xca, 0xa1, 0x68, 0x1f, 0xac, 0x09, 0x12, 0x0e, 0xca, 0x30, 0x75, 0x86, 0xe1, 0xa7,
];

/// What CTR makes of them.
const CTR: [u8; 64] = [
    0x87, 0x4d, 0x61, 0x91, 0xb6, 0x20, 0xe3, 0x26, 0x1b, 0xef, 0x68, 0x64, 0x99, 0x0d, 0xb6, 0xce,
    0x98, 0x06, 0xf6, 0x6b, 0x79, 0x70, 0xfd, 0xff, 0x86, 0x17, 0x18, 0x7b, 0xb9, 0xff, 0xfd, 0xff,
    0x5a, 0xe4, 0xdf, 0x3e, 0xdb, 0xd5, 0xd3, 0x5e, 0x5b, 0x4f, 0x09, 0x02, 0x0d, 0xb0, 0x3e, 0xab,
    0x1e, 0x03, 0x1d, 0xda, 0x2f, 0xbe, 0x03, 0xd1, 0x79, 0x21, 0x70, 0xa0, 0xf3, 0x00, 0x9c, 0xee,
];

const MODES: &[Mode] = &[Mode::Ecb, Mode::Cbc, Mode::Ctr];

/// What the mode makes of the plain text.
fn text_of(mode: Mode) -> &'static [u8; 64] {
    match mode {
        Mode::Ecb => &ECB,
        Mode::Cbc => &CBC,
        Mode::Ctr => &CTR,
    }
}

/// A stream under the key and the mode's vector.
fn begin(mode: Mode, way: Way) -> Result<Stream, WrongKeyLength> {
    let iv = match mode {
        Mode::Ctr => COUNTER,
        Mode::Ecb | Mode::Cbc => CBC_VECTOR,
    };
    Ok(start(expand(&KEY)?, mode, way, iv))
}

/// The input gives this text in one piece.
fn converts_whole(stream: &mut Stream, input: &[u8; 64], text: &[u8; 64]) -> bool {
    let mut output = [0; 64];
    matches!(stream.finish(input, &mut output), Ok(64)) && output == *text
}

/// Where pieces of 1, 15, 16, 17 and 15 bytes begin and end.
const PIECES: &[(usize, usize)] = &[(0, 1), (1, 16), (16, 32), (32, 49), (49, 64)];

/// Feeds a piece of the input, and tells how much of the output is written behind it.
fn feed(
    stream: &mut Stream,
    input: &[u8; 64],
    from: usize,
    to: usize,
    output: &mut [u8; 64],
    written: usize,
) -> Option<usize> {
    if from > to || to > 64 || written > 64 {
        return None;
    }
    match stream.update(&input[from..to], &mut output[written..]) {
        Ok(count) => written.checked_add(count),
        Err(_) => None,
    }
}

/// The input gives this text in pieces.
fn converts_pieces(stream: &mut Stream, input: &[u8; 64], text: &[u8; 64]) -> bool {
    let mut output = [0; 64];
    let mut written = 0;
    for (from, to) in PIECES {
        match feed(stream, input, *from, *to, &mut output, written) {
            Some(behind) => written = behind,
            None => return false,
        }
    }
    written == 64 && matches!(stream.finish(&[], &mut []), Ok(0)) && output == *text
}

/// A stream of the mode converts the input to the text, whole, and another in pieces.
fn converts(mode: Mode, way: Way, input: &[u8; 64], text: &[u8; 64]) -> bool {
    match begin(mode, way) {
        Ok(stream) => {
            let mut whole = stream;
            let mut pieces = stream;
            converts_whole(&mut whole, input, text) && converts_pieces(&mut pieces, input, text)
        }
        Err(_) => false,
    }
}

#[test]
fn standard_vectors(rt: HostRuntime) {
    let plain = PLAIN;
    for mode in MODES {
        let text = text_of(*mode);
        assert!(rt; converts(*mode, Way::Encrypt, &plain, text));
        assert!(rt; converts(*mode, Way::Decrypt, text, &plain));
    }
}

/// The expected bytes are those of OpenSSL.
#[test]
fn counter_wraps(rt: HostRuntime) -> Result<(), Fail> {
    let mut stream = start(expand(&KEY)?, Mode::Ctr, Way::Encrypt, [0xff; 16]);
    let mut output = [0; 32];
    assert!(rt; stream.finish(&[0; 32], &mut output)? == 32);
    let text = [
        0x8a, 0xf2, 0x86, 0x01, 0x42, 0xf7, 0x86, 0xf4, 0x09, 0x30, 0x7c, 0x1a, 0x3f, 0x7e, 0xaa,
        0xac, 0x7d, 0xf7, 0x6b, 0x0c, 0x1a, 0xb8, 0x99, 0xb3, 0x3e, 0x42, 0xf0, 0x47, 0xb9, 0x1b,
        0x54, 0x6f,
    ];
    assert!(rt; output == text);
    Ok(())
}

/// Room for a byte too few, and a byte too few at the end, are refused.
fn refuses(stream: &mut Stream, plain: &[u8; 64], output: &mut [u8; 64]) -> bool {
    stream.needed(64) == 64
        && matches!(
            stream.update(plain, &mut output[..63]),
            Err(ModeAnswer::ShortBuffer(64))
        )
        && matches!(
            stream.finish(&plain[..63], output),
            Err(ModeAnswer::Incomplete)
        )
}

/// The next message of the stream gives this text, when it is fed and then ended.
fn converts_and_ends(stream: &mut Stream, input: &[u8; 64], text: &[u8; 64]) -> bool {
    let mut output = [0; 64];
    matches!(stream.update(input, &mut output), Ok(64))
        && output == *text
        && matches!(stream.finish(&[], &mut []), Ok(0))
}

#[test]
fn refusals(rt: HostRuntime) -> Result<(), Fail> {
    let plain = PLAIN;
    let text = CBC;
    let mut stream = begin(Mode::Cbc, Way::Encrypt)?;
    assert!(rt; refuses(&mut stream, &plain, &mut [0; 64]));
    assert!(rt; converts_and_ends(&mut stream, &plain, &text));
    assert!(rt; converts_whole(&mut stream, &plain, &text));
    Ok(())
}
