//! Each ask with an Ok, with each refusal and with each misuse; published vectors in pieces.

use crate::words::{Do, Row, Told, check, check_on};
use operation_asks::Operations;
use std::alloc::Global;
use std::process::Abort;
use tee_base::{Code, keys};

const UNSUPPORTED: Told<'static> = Told::Refused(Code::NOT_SUPPORTED);

/// SP 800-38A, appendix F: the key, the vector, the first two blocks, and what CBC makes of them.
const KEY: &[u8] = &[
    0x2b, 0x7e, 0x15, 0x16, 0x28, 0xae, 0xd2, 0xa6, 0xab, 0xf7, 0x15, 0x88, 0x09, 0xcf, 0x4f, 0x3c,
];

const VECTOR: &[u8] = &[
    0x00, 0x01, 0x02, 0x03, 0x04, 0x05, 0x06, 0x07, 0x08, 0x09, 0x0a, 0x0b, 0x0c, 0x0d, 0x0e, 0x0f,
];

const PLAIN_1: &[u8] = &[0x6b, 0xc1, 0xbe, 0xe2, 0x2e];

const PLAIN_2: &[u8] = &[
    0x40, 0x9f, 0x96, 0xe9, 0x3d, 0x7e, 0x11, 0x73, 0x93, 0x17, 0x2a, 0xae, 0x2d, 0x8a,
];

const PLAIN_3: &[u8] = &[
    0x57, 0x1e, 0x03, 0xac, 0x9c, 0x9e, 0xb7, 0x6f, 0xac, 0x45, 0xaf, 0x8e, 0x51,
];

const CBC_1: &[u8] = &[
    0x76, 0x49, 0xab, 0xac, 0x81, 0x19, 0xb2, 0x46, 0xce, 0xe9, 0x8e, 0x9b, 0x12, 0xe9, 0x19, 0x7d,
];

const CBC_2: &[u8] = &[
    0x50, 0x86, 0xcb, 0x9b, 0x50, 0x72, 0x19, 0xee, 0x95, 0xdb, 0x11, 0x3a, 0x91, 0x76, 0x78, 0xb2,
];

/// The same section's first block in ECB and in counter mode, whose vector is `f0` to `ff`.
const COUNTER: &[u8] = &[
    0xf0, 0xf1, 0xf2, 0xf3, 0xf4, 0xf5, 0xf6, 0xf7, 0xf8, 0xf9, 0xfa, 0xfb, 0xfc, 0xfd, 0xfe, 0xff,
];

const ECB_1: &[u8] = &[
    0x3a, 0xd7, 0x7b, 0xb4, 0x0d, 0x7a, 0x36, 0x60, 0xa8, 0x9e, 0xca, 0xf3, 0x24, 0x66, 0xef, 0x97,
];

const CTR_1: &[u8] = &[0x87, 0x4d, 0x61, 0x91, 0xb6];

const CTR_2: &[u8] = &[
    0x20, 0xe3, 0x26, 0x1b, 0xef, 0x68, 0x64, 0x99, 0x0d, 0xb6, 0xce, 0x98, 0x06, 0xf6,
];

/// RFC 4231, section 4.5, whose message is fifty times `cd`.
const MAC_KEY: &[u8] = &[
    0x01, 0x02, 0x03, 0x04, 0x05, 0x06, 0x07, 0x08, 0x09, 0x0a, 0x0b, 0x0c, 0x0d, 0x0e, 0x0f, 0x10,
    0x11, 0x12, 0x13, 0x14, 0x15, 0x16, 0x17, 0x18, 0x19,
];

const MAC: &[u8] = &[
    0x82, 0x55, 0x8a, 0x38, 0x9a, 0x44, 0x3c, 0x0e, 0xa4, 0xcc, 0x81, 0x98, 0x99, 0xf2, 0x08, 0x3a,
    0x85, 0xf0, 0xfa, 0xa3, 0xe5, 0x78, 0xf8, 0x07, 0x7a, 0x2e, 0x3f, 0xf4, 0x67, 0x29, 0x66, 0x5b,
];

const MAC_FRONT: &[u8] = &[0x82, 0x55, 0x8a, 0x38];

/// FIPS 180-4's example: the digest of `abc`.
const ABC: &[u8] = &[
    0xba, 0x78, 0x16, 0xbf, 0x8f, 0x01, 0xcf, 0xea, 0x41, 0x41, 0x40, 0xde, 0x5d, 0xae, 0x22, 0x23,
    0xb0, 0x03, 0x61, 0xa3, 0x96, 0x17, 0x7a, 0x9c, 0xb4, 0x10, 0xff, 0x61, 0xf2, 0x00, 0x15, 0xad,
];

/// GCM's example with associated data (McGrew and Viega, appendix B, case 4; SP 800-38D), cut after 20 bytes, and its tag
/// with one wrong bit.
const GCM_KEY: &[u8] = &[
    0xfe, 0xff, 0xe9, 0x92, 0x86, 0x65, 0x73, 0x1c, 0x6d, 0x6a, 0x8f, 0x94, 0x67, 0x30, 0x83, 0x08,
];

const NONCE: &[u8] = &[
    0xca, 0xfe, 0xba, 0xbe, 0xfa, 0xce, 0xdb, 0xad, 0xde, 0xca, 0xf8, 0x88,
];

const AAD: &[u8] = &[
    0xfe, 0xed, 0xfa, 0xce, 0xde, 0xad, 0xbe, 0xef, 0xfe, 0xed, 0xfa, 0xce, 0xde, 0xad, 0xbe, 0xef,
    0xab, 0xad, 0xda, 0xd2,
];

const TEXT_1: &[u8] = &[
    0xd9, 0x31, 0x32, 0x25, 0xf8, 0x84, 0x06, 0xe5, 0xa5, 0x59, 0x09, 0xc5, 0xaf, 0xf5, 0x26, 0x9a,
    0x86, 0xa7, 0xa9, 0x53,
];

const TEXT_2: &[u8] = &[
    0x15, 0x34, 0xf7, 0xda, 0x2e, 0x4c, 0x30, 0x3d, 0x8a, 0x31, 0x8a, 0x72, 0x1c, 0x3c, 0x0c, 0x95,
    0x95, 0x68, 0x09, 0x53, 0x2f, 0xcf, 0x0e, 0x24, 0x49, 0xa6, 0xb5, 0x25, 0xb1, 0x6a, 0xed, 0xf5,
    0xaa, 0x0d, 0xe6, 0x57, 0xba, 0x63, 0x7b, 0x39,
];

const SEALED_1: &[u8] = &[
    0x42, 0x83, 0x1e, 0xc2, 0x21, 0x77, 0x74, 0x24, 0x4b, 0x72, 0x21, 0xb7, 0x84, 0xd0, 0xd4, 0x9c,
    0xe3, 0xaa, 0x21, 0x2f,
];

const SEALED_2: &[u8] = &[
    0x2c, 0x02, 0xa4, 0xe0, 0x35, 0xc1, 0x7e, 0x23, 0x29, 0xac, 0xa1, 0x2e, 0x21, 0xd5, 0x14, 0xb2,
    0x54, 0x66, 0x93, 0x1c, 0x7d, 0x8f, 0x6a, 0x5a, 0xac, 0x84, 0xaa, 0x05, 0x1b, 0xa3, 0x0b, 0x39,
    0x6a, 0x0a, 0xac, 0x97, 0x3d, 0x58, 0xe0, 0x91,
];

const TAG: &[u8] = &[
    0x5b, 0xc9, 0x4f, 0xbc, 0x32, 0x21, 0xa5, 0xdb, 0x94, 0xfa, 0xe9, 0x5a, 0xe7, 0x12, 0x1a, 0x47,
];

const WRONG_TAG: &[u8] = &[
    0x5a, 0xc9, 0x4f, 0xbc, 0x32, 0x21, 0xa5, 0xdb, 0x94, 0xfa, 0xe9, 0x5a, 0xe7, 0x12, 0x1a, 0x47,
];

/// The code of CMAC of the first block (SP 800-38B, appendix D).
const CMAC_1: &[u8] = &[
    0x07, 0x0a, 0x16, 0xb4, 0x6b, 0x4d, 0x41, 0x44, 0xf7, 0x9b, 0xdd, 0x9d, 0xd0, 0x4a, 0x28, 0x7c,
];

const BLOCK: &[u8] = &[
    0x6b, 0xc1, 0xbe, 0xe2, 0x2e, 0x40, 0x9f, 0x96, 0xe9, 0x3d, 0x7e, 0x11, 0x73, 0x93, 0x17, 0x2a,
];

const CBC: u32 = keys::AES_CBC;

const AES: u32 = keys::KIND_AES;

const HMAC: u32 = keys::HMAC_SHA256;

const ALL: u32 = keys::USAGE_NEW;

#[test]
fn operations_come_and_go(rt: HostRuntime) {
    const ROWS: &[Row] = &[
        (1, Do::New(CBC, 0, 128), Told::Number(1)),
        (1, Do::New(0, 0, 128), UNSUPPORTED),
        (1, Do::New(CBC, 4, 128), UNSUPPORTED),
        (1, Do::New(CBC, 0, 160), UNSUPPORTED),
        (1, Do::New(HMAC, 4, 1_024), Told::Number(2)),
        (1, Do::New(keys::SHA256, 5, 7), Told::Number(3)),
        (2, Do::New(keys::SHA512, 5, 0), Told::Number(1)),
        (1, Do::Info(2), Told::About(HMAC, 4, 1_024, 0, false)),
        (2, Do::Info(2), Told::Panicked),
        (1, Do::Info(0), Told::Panicked),
        (1, Do::Free(0), Told::Done),
        (1, Do::Free(4), Told::Panicked),
        (2, Do::Free(3), Told::Panicked),
        (1, Do::Free(2), Told::Done),
        (1, Do::Info(2), Told::Panicked),
        (1, Do::New(CBC, 1, 256), Told::Number(2)),
        (1, Do::New(CBC, 1, 256), Told::Number(4)),
        (1, Do::New(CBC, 1, 256), Told::Number(5)),
        (1, Do::New(CBC, 1, 256), Told::Number(6)),
        (1, Do::New(CBC, 1, 256), Told::Number(7)),
        (1, Do::New(CBC, 1, 256), Told::Number(8)),
        (1, Do::New(CBC, 1, 256), Told::Refused(Code::BUSY)),
        (1, Do::New(CBC, 1, 64), UNSUPPORTED),
        (2, Do::New(CBC, 1, 256), Told::Number(2)),
        (1, Do::Free(5), Told::Done),
        (1, Do::New(CBC, 1, 256), Told::Number(5)),
        (1, Do::Close(0), Told::Panicked),
    ];
    check(&rt, rt.alloc(), ROWS);
}

#[test]
fn keys_are_set_and_taken_away(rt: HostRuntime) {
    const GONE: Told<'static> = Told::Refused(Code::STORAGE_NOT_AVAILABLE);
    const ROWS: &[Row] = &[
        (1, Do::New(CBC, 1, 128), Told::Number(1)),
        (1, Do::New(keys::SHA256, 5, 0), Told::Number(2)),
        (1, Do::SetKey(3, 1), Told::Panicked),
        (2, Do::SetKey(1, 0), Told::Panicked),
        (1, Do::SetKey(2, 1), Told::Panicked),
        (1, Do::SetKey(2, 0), Told::Panicked),
        (1, Do::Reset(1), Told::Panicked),
        (1, Do::Reset(2), Told::Done),
        (1, Do::SetKey(1, 7), Told::Wants(1, 7)),
        (1, Do::NoKey(1), Told::Panicked),
        (1, Do::Gone(1), GONE),
        (
            1,
            Do::Key(1, keys::KIND_HMAC_SHA256, ALL, MAC_KEY),
            Told::Panicked,
        ),
        (1, Do::Key(1, AES, ALL, MAC_KEY), Told::Panicked),
        (1, Do::Key(1, AES, ALL, MAC), Told::Panicked),
        (1, Do::Key(1, AES, keys::USAGE_ENCRYPT, KEY), Told::Panicked),
        (1, Do::Key(1, keys::KIND_DATA, ALL, &[]), Told::Panicked),
        (1, Do::Key(2, AES, ALL, KEY), Told::Panicked),
        (1, Do::Key(3, AES, ALL, KEY), Told::Panicked),
        (1, Do::Info(1), Told::About(CBC, 1, 128, 0, false)),
        (1, Do::Key(1, AES, keys::USAGE_DECRYPT, KEY), Told::Done),
        (1, Do::Info(1), Told::About(CBC, 1, 128, 128, false)),
        (1, Do::Init(1, VECTOR), Told::Done),
        (1, Do::Info(1), Told::About(CBC, 1, 128, 128, true)),
        (1, Do::SetKey(1, 7), Told::Panicked),
        (1, Do::SetKey(1, 0), Told::Panicked),
        (1, Do::Reset(1), Told::Done),
        (1, Do::Info(1), Told::About(CBC, 1, 128, 128, false)),
        (1, Do::SetKey(1, 0), Told::Done),
        (1, Do::Info(1), Told::About(CBC, 1, 128, 0, false)),
    ];
    check(&rt, rt.alloc(), ROWS);
}

#[test]
fn operations_are_copied(rt: HostRuntime) {
    const ROWS: &[Row] = &[
        (1, Do::New(CBC, 0, 128), Told::Number(1)),
        (1, Do::New(CBC, 0, 256), Told::Number(2)),
        (1, Do::New(CBC, 1, 256), Told::Number(3)),
        (1, Do::New(keys::AES_ECB, 0, 256), Told::Number(4)),
        (1, Do::Copy(5, 1), Told::Panicked),
        (1, Do::Copy(1, 5), Told::Panicked),
        (2, Do::Copy(1, 2), Told::Panicked),
        (1, Do::Copy(3, 2), Told::Panicked),
        (1, Do::Copy(4, 2), Told::Panicked),
        (1, Do::Key(2, AES, ALL, MAC), Told::Done),
        (1, Do::Copy(1, 2), Told::Panicked),
        (1, Do::Key(2, AES, ALL, KEY), Told::Done),
        (1, Do::Init(2, VECTOR), Told::Done),
        (1, Do::Update(2, PLAIN_1, 0), Told::Bytes(&[])),
        (1, Do::Copy(1, 2), Told::Done),
        (1, Do::Copy(1, 1), Told::Done),
        (1, Do::Info(1), Told::About(CBC, 0, 128, 128, true)),
        (1, Do::Update(2, PLAIN_2, 16), Told::Bytes(CBC_1)),
        (1, Do::Update(1, PLAIN_2, 16), Told::Bytes(CBC_1)),
        (1, Do::Reset(2), Told::Done),
        (1, Do::Copy(2, 1), Told::Done),
        (1, Do::Final(2, PLAIN_3, 16), Told::Bytes(CBC_2)),
        (1, Do::Final(1, PLAIN_3, 16), Told::Bytes(CBC_2)),
    ];
    check(&rt, rt.alloc(), ROWS);
}

#[test]
fn ciphers(rt: HostRuntime) {
    const ROWS: &[Row] = &[
        (1, Do::New(CBC, 0, 128), Told::Number(1)),
        (1, Do::New(keys::AES_ECB, 0, 128), Told::Number(2)),
        (1, Do::New(keys::AES_CTR, 0, 128), Told::Number(3)),
        (1, Do::New(keys::SHA256, 5, 0), Told::Number(4)),
        (1, Do::Init(1, VECTOR), Told::Panicked),
        (1, Do::Init(4, VECTOR), Told::Panicked),
        (1, Do::Init(5, VECTOR), Told::Panicked),
        (1, Do::Key(1, AES, ALL, KEY), Told::Done),
        (1, Do::Key(2, AES, ALL, KEY), Told::Done),
        (1, Do::Key(3, AES, ALL, KEY), Told::Done),
        (1, Do::Init(1, PLAIN_1), Told::Panicked),
        (1, Do::Init(2, VECTOR), Told::Panicked),
        (1, Do::Init(3, &[]), Told::Panicked),
        (1, Do::Update(1, PLAIN_1, 16), Told::Panicked),
        (1, Do::Final(1, PLAIN_1, 16), Told::Panicked),
        (1, Do::Update(4, PLAIN_1, 16), Told::Panicked),
        (1, Do::Final(4, PLAIN_1, 16), Told::Panicked),
        (1, Do::Update(5, PLAIN_1, 16), Told::Panicked),
        (1, Do::Final(5, PLAIN_1, 16), Told::Panicked),
        (1, Do::Init(1, VECTOR), Told::Done),
        (1, Do::Update(1, PLAIN_1, 0), Told::Bytes(&[])),
        (1, Do::Update(1, PLAIN_2, 15), Told::Short(16)),
        (1, Do::Update(1, PLAIN_2, 524_289), Told::Panicked),
        (1, Do::Update(1, PLAIN_2, 524_288), Told::Bytes(CBC_1)),
        (1, Do::Final(1, PLAIN_1, 16), Told::Panicked),
        (1, Do::Final(1, PLAIN_3, 15), Told::Short(16)),
        (1, Do::Final(1, PLAIN_3, 524_289), Told::Panicked),
        (1, Do::Final(1, PLAIN_3, 16), Told::Bytes(CBC_2)),
        (1, Do::Info(1), Told::About(CBC, 0, 128, 128, false)),
        (1, Do::Init(2, &[]), Told::Done),
        (1, Do::Update(2, PLAIN_1, 0), Told::Bytes(&[])),
        (1, Do::Update(2, PLAIN_2, 16), Told::Bytes(ECB_1)),
        (1, Do::Init(3, COUNTER), Told::Done),
        (1, Do::Update(3, PLAIN_1, 4), Told::Short(5)),
        (1, Do::Update(3, PLAIN_1, 5), Told::Bytes(CTR_1)),
        (1, Do::Final(3, PLAIN_2, 14), Told::Bytes(CTR_2)),
    ];
    check(&rt, rt.alloc(), ROWS);
}

#[test]
fn codes(rt: HostRuntime) {
    const INVALID: Told<'static> = Told::Refused(Code::MAC_INVALID);
    const SOME: &[u8] = &[0xcd; 20];
    const REST: &[u8] = &[0xcd; 30];
    const ROWS: &[Row] = &[
        (1, Do::New(HMAC, 4, 256), Told::Number(1)),
        (1, Do::New(keys::SHA256, 5, 0), Told::Number(2)),
        (1, Do::MacInit(1), Told::Panicked),
        (1, Do::MacInit(2), Told::Panicked),
        (1, Do::MacInit(3), Told::Panicked),
        (
            1,
            Do::Key(1, keys::KIND_HMAC_SHA256, keys::USAGE_MAC, MAC_KEY),
            Told::Done,
        ),
        (1, Do::MacUpdate(1, SOME), Told::Panicked),
        (1, Do::MacFinal(1, SOME, 32), Told::Panicked),
        (1, Do::Compare(1, SOME, MAC), Told::Panicked),
        (1, Do::MacUpdate(2, SOME), Told::Panicked),
        (1, Do::MacFinal(2, SOME, 32), Told::Panicked),
        (1, Do::Compare(2, SOME, MAC), Told::Panicked),
        (1, Do::MacInit(1), Told::Done),
        (1, Do::MacUpdate(1, SOME), Told::Done),
        (1, Do::MacFinal(1, REST, 31), Told::Short(32)),
        (1, Do::MacFinal(1, REST, 524_289), Told::Panicked),
        (1, Do::MacFinal(1, REST, 32), Told::Bytes(MAC)),
        (1, Do::MacUpdate(1, SOME), Told::Panicked),
        (1, Do::MacInit(1), Told::Done),
        (1, Do::MacUpdate(1, SOME), Told::Done),
        (1, Do::Compare(1, REST, MAC), Told::Done),
        (1, Do::Compare(1, REST, MAC), Told::Panicked),
        (1, Do::MacInit(1), Told::Done),
        (1, Do::Compare(1, REST, MAC), INVALID),
        (1, Do::Info(1), Told::About(HMAC, 4, 256, 200, false)),
        (1, Do::MacInit(1), Told::Done),
        (1, Do::MacUpdate(1, SOME), Told::Done),
        (1, Do::Compare(1, REST, MAC_FRONT), INVALID),
        (1, Do::New(keys::AES_CMAC, 4, 128), Told::Number(3)),
        (1, Do::Key(3, AES, keys::USAGE_MAC, KEY), Told::Done),
        (1, Do::MacInit(3), Told::Done),
        (1, Do::MacUpdate(3, BLOCK), Told::Done),
        (1, Do::MacFinal(3, &[], 16), Told::Bytes(CMAC_1)),
        (1, Do::MacInit(3), Told::Done),
        (1, Do::Compare(3, BLOCK, CMAC_1), Told::Done),
    ];
    check(&rt, rt.alloc(), ROWS);
}

#[test]
fn authenticated_encryption(rt: HostRuntime) {
    const INVALID: Told<'static> = Told::Refused(Code::MAC_INVALID);
    const GCM: u32 = keys::AES_GCM;
    const ROWS: &[Row] = &[
        (1, Do::New(GCM, 0, 128), Told::Number(1)),
        (1, Do::New(GCM, 1, 128), Told::Number(2)),
        (1, Do::AeInit(1, NONCE, 128), Told::Panicked),
        (1, Do::Key(1, AES, ALL, GCM_KEY), Told::Done),
        (1, Do::Key(2, AES, ALL, GCM_KEY), Told::Done),
        (1, Do::AeInit(1, NONCE, 100), UNSUPPORTED),
        (1, Do::AeInit(1, NONCE, 128), Told::Done),
        (1, Do::AeAad(1, AAD), Told::Done),
        (1, Do::AeUpdate(1, TEXT_1, 20), Told::Bytes(SEALED_1)),
        (1, Do::AeAad(1, AAD), Told::Panicked),
        (1, Do::AeSeal(1, TEXT_2, 40, 15), Told::Short(16)),
        (
            1,
            Do::AeSeal(1, TEXT_2, 40, 16),
            Told::Sealed(SEALED_2, TAG),
        ),
        (1, Do::AeInit(2, NONCE, 128), Told::Done),
        (1, Do::AeAad(2, AAD), Told::Done),
        (1, Do::AeUpdate(2, SEALED_1, 19), Told::Short(20)),
        (1, Do::AeUpdate(2, SEALED_1, 20), Told::Bytes(TEXT_1)),
        (1, Do::AeSeal(2, SEALED_2, 40, 16), Told::Panicked),
        (1, Do::AeOpen(2, SEALED_2, 40, TAG), Told::Bytes(TEXT_2)),
        (1, Do::AeInit(2, NONCE, 128), Told::Done),
        (1, Do::AeAad(2, AAD), Told::Done),
        (1, Do::AeUpdate(2, SEALED_1, 20), Told::Bytes(TEXT_1)),
        (1, Do::AeOpen(2, SEALED_2, 40, WRONG_TAG), INVALID),
        (1, Do::Info(2), Told::About(GCM, 1, 128, 128, false)),
        (1, Do::AeOpen(2, SEALED_2, 40, TAG), Told::Panicked),
    ];
    check(&rt, rt.alloc(), ROWS);
}

#[test]
fn digests(rt: HostRuntime) {
    const SHA: u32 = keys::SHA256;
    const ROWS: &[Row] = &[
        (1, Do::New(SHA, 5, 0), Told::Number(1)),
        (1, Do::New(CBC, 0, 128), Told::Number(2)),
        (1, Do::DigestUpdate(2, b"a"), Told::Panicked),
        (1, Do::DigestFinal(2, b"a", 32), Told::Panicked),
        (1, Do::DigestUpdate(3, b"a"), Told::Panicked),
        (1, Do::DigestUpdate(1, b"a"), Told::Done),
        (1, Do::Info(1), Told::About(SHA, 5, 0, 0, true)),
        (1, Do::DigestFinal(1, b"bc", 31), Told::Short(32)),
        (1, Do::DigestFinal(1, b"bc", 524_289), Told::Panicked),
        (1, Do::DigestFinal(1, b"bc", 32), Told::Bytes(ABC)),
        (1, Do::Info(1), Told::About(SHA, 5, 0, 0, false)),
        (1, Do::DigestFinal(1, b"abc", 32), Told::Bytes(ABC)),
        (1, Do::DigestUpdate(1, b"x"), Told::Done),
        (1, Do::Reset(1), Told::Done),
        (1, Do::DigestFinal(1, b"abc", 32), Told::Bytes(ABC)),
    ];
    check(&rt, rt.alloc(), ROWS);
}

// The first words of ChaCha20 under an all-zero key: 76b8e0ad a0f13d90 405d6ae5 5386bd28.
#[test]
fn random_bytes(rt: HostRuntime) {
    const ROWS: &[Row] = &[
        (1, Do::Random(524_289), Told::Panicked),
        (1, Do::Random(0), Told::Bytes(&[])),
        (
            1,
            Do::Random(5),
            Told::Bytes(&[0x76, 0xb8, 0xe0, 0xad, 0xa0]),
        ),
        (2, Do::Random(4), Told::Bytes(&[0x40, 0x5d, 0x6a, 0xe5])),
        (1, Do::Random(4), Told::Bytes(&[0x53, 0x86, 0xbd, 0x28])),
    ];
    check(&rt, rt.alloc(), ROWS);
}

/// Draws the first six bytes of the stream.
fn draw(rt: &impl Abort, alloc: Global, crypto: &mut Operations) {
    const DRAWN: &[u8] = &[0x76, 0xb8, 0xe0, 0xad, 0xa0, 0xf1];
    let bytes = crypto.draw(alloc, 6).expect(rt, "bytes");
    assert!(rt; bytes.as_slice() == DRAWN);
}

/// Draws, makes an operation for each of two instances, and ends one of them.
fn draw_and_end(rt: &impl Abort, alloc: Global, crypto: &mut Operations) {
    const DRAWN: &[Row] = &[
        (1, Do::Random(4), Told::Bytes(&[0x40, 0x5d, 0x6a, 0xe5])),
        (1, Do::New(CBC, 0, 128), Told::Number(1)),
        (2, Do::New(CBC, 0, 128), Told::Number(1)),
    ];
    const ENDED: &[Row] = &[
        (1, Do::Info(1), Told::Panicked),
        (2, Do::Info(1), Told::About(CBC, 0, 128, 0, false)),
    ];
    draw(rt, alloc, crypto);
    check_on(rt, alloc, crypto, DRAWN);
    crypto.end_instance(1);
    check_on(rt, alloc, crypto, ENDED);
}

#[test]
fn bytes_are_drawn_and_instances_end(rt: HostRuntime) {
    let mut crypto = Operations::new(rt.alloc(), [0; 32], 0, 0);
    draw_and_end(&rt, rt.alloc(), &mut crypto);
    drop(crypto);
}

/// These bytes are misuse as a vector of the cipher 1, and in each ask about it, about the code 2 and the digest 3.
/// Then the cipher goes on.
fn check_long(rt: &impl Abort, alloc: Global, long: &[u8]) {
    let rows = [
        (1, Do::New(keys::AES_CTR, 0, 128), Told::Number(1)),
        (1, Do::New(HMAC, 4, 256), Told::Number(2)),
        (1, Do::New(keys::SHA256, 5, 0), Told::Number(3)),
        (1, Do::Key(1, AES, ALL, KEY), Told::Done),
        (
            1,
            Do::Key(2, keys::KIND_HMAC_SHA256, ALL, MAC_KEY),
            Told::Done,
        ),
        (1, Do::Init(1, long), Told::Panicked),
        (1, Do::Init(1, COUNTER), Told::Done),
        (1, Do::MacInit(2), Told::Done),
        (1, Do::Update(1, long, 524_288), Told::Panicked),
        (1, Do::Final(1, long, 524_288), Told::Panicked),
        (1, Do::MacUpdate(2, long), Told::Panicked),
        (1, Do::MacFinal(2, long, 32), Told::Panicked),
        (1, Do::Compare(2, long, MAC), Told::Panicked),
        (1, Do::Compare(2, &[], long), Told::Panicked),
        (1, Do::DigestUpdate(3, long), Told::Panicked),
        (1, Do::DigestFinal(3, long, 32), Told::Panicked),
        (1, Do::Update(1, PLAIN_1, 5), Told::Bytes(CTR_1)),
    ];
    check(rt, alloc, &rows);
}

#[test]
fn too_many_bytes_are_misuse(rt: HostRuntime) {
    let long = vec![in rt.alloc(); 0u8; 524_289].expect(&rt, "zeros");
    check_long(&rt, rt.alloc(), long.as_slice());
}
