//! Published digests, and two digesters that go on apart.

use crate::bytes::are;
use mac_digest::{Digester, Hash, digest};
use std::process::Abort;
use std::test::Fail;

/// The hash functions that there are.
pub const HASHES: &[Hash] = &[Hash::Sha256, Hash::Sha384, Hash::Sha512];

/// The digests of the empty message and of `abc`, in the examples to FIPS 180-4, under each of `HASHES`.
const DIGESTS: &[(&[u8], [&str; 3])] = &[
    (
        b"",
        [
            "e3b0c44298fc1c149afbf4c8996fb92427ae41e4649b934ca495991b7852b855",
            "38b060a751ac96384cd9327eb1b1e36a21fdb71114be07434c0cc7bf63f6e1da274edebfe76f65fbd51ad2f14898b95b",
            "cf83e1357eefb8bdf1542850d66d8007d620e4050b5715dc83f4a921d36ce9ce47d0d13c5d85f2b0ff8318d2877eec2f63b931bd47417a81a538327af927da3e",
        ],
    ),
    (
        b"abc",
        [
            "ba7816bf8f01cfea414140de5dae2223b00361a396177a9cb410ff61f20015ad",
            "cb00753f45a35e8bb5a03d699ac65007272c32ab0eded1631a8b605a43ff5bed8086072ba1e7cc2358baeca134c825a7",
            "ddaf35a193617abacc417349ae20413112e6fa4e89a97ea20a9eeee64b55d39a2192992a274fc1a836ba3c23a3feebbd454d4423643ce80e2a9ac94fa54ca49f",
        ],
    ),
];

/// The digest comes out in one piece and byte by byte, and has so many bytes.
fn has_digest(digester: &mut Digester, message: &[u8], wanted: &str, length: usize) -> bool {
    digester.update(message);
    let first = digester.finish();
    let in_one = first.as_slice().len() == length && are(first.as_slice(), wanted);
    drop(first);
    for byte in message {
        digester.update(&[*byte]);
    }
    in_one && are(digester.finish().as_slice(), wanted)
}

/// The message has these digests, each as long as its hash says.
fn has_digests(message: &[u8], digests: &[&str; 3]) -> bool {
    for i in 0..3 {
        let mut digester = digest(HASHES[i]);
        let holds = has_digest(&mut digester, message, digests[i], HASHES[i].digest_len());
        drop(digester);
        if !holds {
            return false;
        }
    }
    true
}

#[test]
fn published_digests(rt: HostRuntime) {
    for (message, digests) in DIGESTS {
        assert!(rt; has_digests(message, digests));
    }
    assert!(rt; Hash::Sha384.block_len() == 128);
}

/// The digester's message is this one, which another takes in whole.
fn has_taken(digester: &mut Digester, whole: &mut Digester, message: &[u8]) -> bool {
    whole.update(message);
    let wanted = whole.finish();
    let found = digester.finish();
    found.as_slice() == wanted.as_slice()
}

#[test]
fn a_copy_goes_on_apart(rt: HostRuntime) -> Result<(), Fail> {
    let mut digester = digest(Hash::Sha512);
    digester.update(b"ab");
    let mut copy = digester.clone()?;
    digester.update(b"c");
    copy.update(b"d");
    let mut whole = digest(Hash::Sha512);
    assert!(rt; has_taken(&mut digester, &mut whole, b"abc"));
    assert!(rt; has_taken(&mut copy, &mut whole, b"abd"));
    Ok(())
}
