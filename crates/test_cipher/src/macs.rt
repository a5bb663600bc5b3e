//! Published codes, keys about the length of a block, and what compares.

use crate::bytes::are;
use crate::digests::HASHES;
use mac_digest::{Hash, Mac, hmac};
use std::process::Abort;
use std::test::Fail;

/// A key, a message, and its codes.
struct Example {
    key: &'static [u8],
    message: &'static [u8],
    /// Under each of `HASHES`.
    tags: [&'static str; 3],
}

/// RFC 4231 sections 4.2 to 4.5, 4.7 and 4.8.
const CODES: &[Example] = &[
    Example {
        key: &[0x0b; 20],
        message: b"Hi There",
        tags: [
            "b0344c61d8db38535ca8afceaf0bf12b881dc200c9833da726e9376c2e32cff7",
            "afd03944d84895626b0825f4ab46907f15f9dadbe4101ec682aa034c7cebc59cfaea9ea9076ede7f4af152e8b2fa9cb6",
            "87aa7cdea5ef619d4ff0b4241a1d6cb02379f4e2ce4ec2787ad0b30545e17cdedaa833b7d6b8a702038b274eaea3f4e4be9d914eeb61f1702e696c203a126854",
        ],
    },
    Example {
        key: b"Jefe",
        message: b"what do ya want for nothing?",
        tags: [
            "5bdcc146bf60754e6a042426089575c75a003f089d2739839dec58b964ec3843",
            "af45d2e376484031617f78d2b58a6b1b9c7ef464f5a01b47e42ec3736322445e8e2240ca5e69e2c78b3239ecfab21649",
            "164b7a7bfcf819e2e395fbe73b56e0a387bd64222e831fd610270cd7ea2505549758bf75c05a994a6d034f65f8f0e6fdcaeab1a34d4a6b4b636e070a38bce737",
        ],
    },
    Example {
        key: &[0xaa; 20],
        message: &[0xdd; 50],
        tags: [
            "773ea91e36800e46854db8ebd09181a72959098b3ef8c122d9635514ced565fe",
            "88062608d3e6ad8a0aa2ace014c8a86f0aa635d947ac9febe83ef4e55966144b2a5ab39dc13814b94e3ab6e101a34f27",
            "fa73b0089d56a284efb0f0756c890be9b1b5dbdd8ee81a3655f83e33b2279d39bf3e848279a722c806b485a47e67c807b946a337bee8942674278859e13292fb",
        ],
    },
    Example {
        key: b"\x01\x02\x03\x04\x05\x06\x07\x08\x09\x0a\x0b\x0c\x0d\x0e\x0f\x10\x11\x12\x13\x14\x15\x16\x17\x18\x19",
        message: &[0xcd; 50],
        tags: [
            "82558a389a443c0ea4cc819899f2083a85f0faa3e578f8077a2e3ff46729665b",
            "3e8a69b7783c25851933ab6290af6ca77a9981480850009cc5577c6e1f573b4e6801dd23c4a7d679ccf8a386c674cffb",
            "b0ba465637458c6990e5a8c5f61d4af7e576d97ff94b872de76f8050361ee3dba91ca5c11aa25eb4d679275cc5788063a5f19741120c4f2de2adebeb10a298dd",
        ],
    },
    Example {
        key: &[0xaa; 131],
        message: b"Test Using Larger Than Block-Size Key - Hash Key First",
        tags: [
            "60e431591ee0b67f0d8a26aacbf5b77f8e0bc6213728c5140546040f0ee37f54",
            "4ece084485813e9088d2c63a041bc5b44f9ef1012a2b588f3cd11f05033ac4c60c2ef6ab4030fe8296248df163f44952",
            "80b24263c7c1a3ebb71493c1dd7be8b49b46d1f41b4aeec1121b013783f8f3526b56d037e05f2598bd0fd2215d6a1e5295e64f73f63f0aec8b915a985d786598",
        ],
    },
    Example {
        key: &[0xaa; 131],
        message: b"This is a test using a larger than block-size key and a larger than block-size data. The key needs to be hashed before being used by the HMAC algorithm.",
        tags: [
            "9b09ffa71b942fcb27635fbcd5b0e944bfdc63644f0713938a7f51535c3a35e2",
            "6617178e941f020d351e2f254e8fd32c602420feb0b8fb9adccebb82461e99c5a678cc31e799176d3860e6110c46523e",
            "e37b6a775dc87dbaa4dfa9f96e5e3ffddebd71f8867289865df5a32d20cdc944b6022cac3c4982b10d5eeb55c3e4de15134676fb6de0446065c97440fa8c6a58",
        ],
    },
];

/// How many bytes of a key that counts from 1, and the codes of `message` under it. A key as long as a block stands as
/// it is, and one more byte has it hashed. The codes are those of Python's `hmac`.
const KEYS: &[(usize, [&str; 3])] = &[
    (
        64,
        [
            "2c0cad6f39bb306a50959b431754de20f89dd052f0f9ec9d01bea0a7c65a172d",
            "fa109da900e90a0ff3a49275f608d41a3b645687c659a7b359297a745e1ae57858f26e33cffbc5a21babf985011f2a51",
            "d2bd0fca8656e19ae2e9a5099927c54c0db2a09b043576e2eb9dfb373bddd7b4401efc8df6e3f4e1056962944a9e97457beac676fe9324503eb240f4955d40b2",
        ],
    ),
    (
        65,
        [
            "7a2d13317a634cfa226d4c0cc6bb3d920092720a07d209f346bffd8ef4a10fc6",
            "df7a6af7aa9a0ad65fbf4df27786e36d4b9c4acb95e6df1a11506789119bb2fa2500c47de59385c60b9c1b1632f8b3dc",
            "fbd5e975a01c6a2e0c3f1d140cf78d5e5a39da906406c024930d4c3aaf92c573e61059c2a45cf9bae51fbb9882549a9d685da7c6b8d84ed28503628365b843ed",
        ],
    ),
    (
        128,
        [
            "ae80106ad2bd1c2e91c6047d6f969122c1d9acddcd27445424d6e6bbed0d019d",
            "8fe9ee559f6af92cf31410fc4bdf5a88ab906703106c4f7814bef47d145785e4881fc07b55d70e9453794a8c286a6e14",
            "08a35b8c40ec310a7645cfee5ae4979461fee5d2a8310a8043ae2ab3960a782f0fd4284b6d3324d4adc6f9f7fc3573525806bf659ef3db8939f7e7980bcb3d5b",
        ],
    ),
    (
        129,
        [
            "66e2d88596febbf1c54f780567402c149339aced3066ef46ab399b20a5746335",
            "e38d2f6fc61fc2829dc27cc69200b7d95f855d2bb9041752fcf6ea1a07f3a71ce6897fab37620b471c0931b9d954f039",
            "c6c342aeed6f896ea1d1672e8b0a9e215a03f3a6dc5455b69e8cff9b9ddc911898defac8e324a4880ecf8f5e7ca85b81fa34452f648aa3c02a412373d4921c71",
        ],
    ),
];

/// The bytes that count from 1.
fn count_from_1() -> [u8; 129] {
    let mut bytes = [0; 129];
    for i in 0..129u8 {
        bytes[i as usize] = i + 1;
    }
    bytes
}

/// A message that comes byte by byte has this code, and the empty one behind it has another.
fn comes_in_bytes(mac: &mut Mac, message: &[u8], code: &[u8]) -> bool {
    for byte in message {
        mac.update(&[]);
        mac.update(&[*byte]);
    }
    mac.compare(code) && !mac.compare(code)
}

/// The code comes out in one piece, byte by byte, and again after each `finish` and `compare`.
fn has_code(mac: &mut Mac, message: &[u8], wanted: &str) -> bool {
    mac.update(message);
    let tag = mac.finish();
    let in_bytes = comes_in_bytes(mac, message, tag.as_slice());
    let in_one = are(tag.as_slice(), wanted);
    drop(tag);
    mac.update(message);
    in_bytes && in_one && are(mac.finish().as_slice(), wanted)
}

/// The message has these codes under the key.
fn has_codes(key: &[u8], message: &[u8], tags: &[&str; 3]) -> bool {
    for i in 0..3 {
        let mut mac = hmac(HASHES[i], key);
        let holds = has_code(&mut mac, message, tags[i]);
        drop(mac);
        if !holds {
            return false;
        }
    }
    true
}

#[test]
fn published_codes(rt: HostRuntime) {
    for (number, example) in CODES.iter().enumerate() {
        let holds = has_codes(example.key, example.message, &example.tags);
        assert!(rt; holds, "example {number}");
    }
}

#[test]
fn keys_about_a_block(rt: HostRuntime) {
    let key = count_from_1();
    for (length, tags) in KEYS {
        assert!(rt; *length <= 129);
        let holds = has_codes(&key[..*length], b"message", tags);
        assert!(rt; holds, "a key of {length} bytes");
    }
}

/// A copy of a code of 32 bytes.
fn copy_of(rt: &impl Abort, code: &[u8]) -> [u8; 32] {
    assert!(rt; code.len() == 32);
    let mut copy = [0; 32];
    copy.copy_from_slice(code);
    copy
}

/// Of the code, a longer one, a shorter one and none, the code alone compares.
fn compares_alone(mac: &mut Mac, exact: &[u8; 32]) -> bool {
    let mut long = [0; 33];
    long[..32].copy_from_slice(exact);
    mac.compare(exact) && !mac.compare(&long) && !mac.compare(&exact[..31]) && !mac.compare(&[])
}

/// No code with another byte compares.
fn compares_in_no_part(mac: &mut Mac, exact: &[u8; 32]) -> bool {
    for i in 0..32 {
        let mut other = *exact;
        other[i] ^= 0x80;
        if mac.compare(&other) {
            return false;
        }
    }
    true
}

#[test]
fn compare_wants_all_bytes_and_no_more(rt: HostRuntime) {
    let mut mac = hmac(Hash::Sha256, b"key");
    let tag = mac.finish();
    let exact = copy_of(&rt, tag.as_slice());
    drop(tag);
    assert!(rt; compares_alone(&mut mac, &exact));
    assert!(rt; compares_in_no_part(&mut mac, &exact));
}

#[test]
fn a_copy_goes_on_apart(rt: HostRuntime) -> Result<(), Fail> {
    let mut mac = hmac(Hash::Sha384, b"key");
    mac.update(b"ab");
    let mut copy = mac.clone()?;
    mac.update(b"c");
    copy.update(b"c");
    let tag = mac.finish();
    assert!(rt; copy.compare(tag.as_slice()));
    Ok(())
}
