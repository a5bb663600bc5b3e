//! A block sealed and opened under the key of the bytes from 0 to 31, beside what an independent implementation of HMAC
//! and AES computed.

use crate::bytes::{COUNTING, are};
use seal::{Keys, open_leaf, seal_leaf};
use std::process::Abort;

const PLACE: u64 = 273;

const SEQUENCE: u64 = 5;

const IV: &str = "dfd93cd081dc19e3af131be59ed05814";

const FIRST: &str = "b6722c2ed772b94af1621546f452cfddd7555dc01317e1149823415941666f92";

const LAST: &str = "2b55f6903623e1d46baa0e934beeafd5";

const TAG: &str = "5e4263826150bd4f48bd326fb3992a5a799339bc6c8977575baaa09c977c19ab";

/// The sealed block opened at a place and a sequence, after these bits were changed in the last byte of its ciphertext
/// and of the tag that is kept.
struct Opening {
    place: u64,
    sequence: u64,
    cipher: u8,
    tag: u8,
    opens: bool,
    /// The tag that is computed.
    found: &'static str,
}

const OPENINGS: &[Opening] = &[
    Opening {
        place: 273,
        sequence: 5,
        cipher: 0,
        tag: 0,
        opens: true,
        found: TAG,
    },
    Opening {
        place: 274,
        sequence: 5,
        cipher: 0,
        tag: 0,
        opens: false,
        found: "acf9c969ebe513183d7236578133bcf5ec609d51f24f55b9fbfe334ef98d3552",
    },
    Opening {
        place: 273,
        sequence: 6,
        cipher: 0,
        tag: 0,
        opens: false,
        found: "dec372fe447731db01edfe6b71db79842ba756ad2905656ddd764034a90bf4d2",
    },
    Opening {
        place: 273,
        sequence: 5,
        cipher: 1,
        tag: 0,
        opens: false,
        found: "cf1359790eab6da7d8882e3ac3d9de4a7c4042a9e6fdd0dcf2b2bef6d4ff2e7f",
    },
    Opening {
        place: 273,
        sequence: 5,
        cipher: 0,
        tag: 1,
        opens: false,
        found: TAG,
    },
];

/// A line of text, and zeros after it.
fn leaf() -> [u8; 1024] {
    let mut block = [0; 1024];
    let text = b"A leaf of the first region, sealed by commit 5.";
    block[..text.len()].copy_from_slice(text);
    block
}

/// The block begins and ends with these.
fn has_ends(block: &[u8; 1024], first: &str, last: &str) -> bool {
    are(&block[..32], first) && are(&block[1008..], last)
}

#[test]
fn a_block_is_sealed_as_computed_outside(rt: HostRuntime) {
    let keys = Keys::of(&COUNTING);
    let mut cipher = [0; 1024];
    let tags = seal_leaf(&keys, PLACE, SEQUENCE, &leaf(), &mut cipher);
    assert!(rt; are(&tags.iv, IV));
    assert!(rt; are(&tags.tag, TAG));
    assert!(rt; has_ends(&cipher, FIRST, LAST));
}

/// Whether the block opens, and which tag is found, are as in the row. Where it doesn't open, both tags are told, and
/// nothing is written.
fn opens_as_told(row: &Opening) -> bool {
    let keys = Keys::of(&COUNTING);
    let mut cipher = [0; 1024];
    let mut tags = seal_leaf(&keys, PLACE, SEQUENCE, &leaf(), &mut cipher);
    cipher[1023] ^= row.cipher;
    tags.tag[31] ^= row.tag;
    let mut opened = [7; 1024];
    match open_leaf(&keys, row.place, row.sequence, &tags, &cipher, &mut opened) {
        Ok(()) => row.opens && opened == leaf() && are(&tags.tag, row.found),
        Err(mismatch) => {
            !row.opens
                && opened == [7; 1024]
                && mismatch.kept == tags.tag
                && are(&mismatch.found, row.found)
        }
    }
}

#[test]
fn a_block_opens_where_nothing_was_changed(rt: HostRuntime) {
    for (number, row) in OPENINGS.iter().enumerate() {
        let told = opens_as_told(row);
        assert!(rt; told, "row {number}");
    }
}
