//! The table of sizes at its edges, and each call once.

use crate::{Secret, exceeds, size_fits};
use std::process::Abort;
use tee_base::keys;

/// A size, and which of the kinds AES, HMAC-SHA-256, HMAC-SHA-384 and HMAC-SHA-512 it fits.
const SIZES: &[(u32, [bool; 4])] = &[
    (0, [false, false, false, false]),
    (64, [false, false, false, false]),
    (127, [false, false, false, false]),
    (128, [true, false, false, false]),
    (136, [false, false, false, false]),
    (160, [false, false, false, false]),
    (184, [false, false, false, false]),
    (191, [false, false, false, false]),
    (192, [true, true, false, false]),
    (193, [false, false, false, false]),
    (200, [false, true, false, false]),
    (248, [false, true, false, false]),
    (255, [false, false, false, false]),
    (256, [true, true, true, true]),
    (257, [false, false, false, false]),
    (264, [false, true, true, true]),
    (512, [false, true, true, true]),
    (1_016, [false, true, true, true]),
    (1_020, [false, false, false, false]),
    (1_024, [false, true, true, true]),
    (1_032, [false, false, false, false]),
    (4_294_967_288, [false, false, false, false]),
];

/// The kinds of the table's columns.
const KINDS: &[u32] = &[
    keys::KIND_AES,
    keys::KIND_HMAC_SHA256,
    keys::KIND_HMAC_SHA384,
    keys::KIND_HMAC_SHA512,
];

/// Whether a size fits the kinds that it should, and no other.
fn fits(bits: u32, fits: &[bool; 4]) -> bool {
    for (kind, wanted) in KINDS.iter().zip(fits) {
        if size_fits(*kind, bits) != *wanted {
            return false;
        }
    }
    !size_fits(keys::KIND_DATA, bits) && !size_fits(0, bits)
}

// TEE Internal Core API 1.3, section 5.6.1.
#[test]
fn sizes_at_their_edges(rt: HostRuntime) {
    for (bits, wanted) in SIZES {
        assert!(rt; fits(*bits, wanted), "{bits} bits");
    }
}

#[test]
fn each_call_once(rt: HostRuntime) {
    let secret = Secret::from_slice(&[7; 24]);
    let other = secret.copy();
    assert!(rt; other.as_slice() == [7; 24].as_slice());
    assert!(rt; (other.len(), other.bits()) == (24, 192));
    assert!(rt; size_fits(keys::KIND_AES, other.bits()));
    assert!(rt; exceeds(other.as_slice(), 191));
    assert!(rt; !exceeds(other.as_slice(), 192));
}
