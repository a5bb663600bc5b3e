//! Bytes that several tests are about, and bytes beside their text.

/// The bytes from 0 to 31.
pub const COUNTING: [u8; 32] = [
    0x00, 0x01, 0x02, 0x03, 0x04, 0x05, 0x06, 0x07, 0x08, 0x09, 0x0a, 0x0b, 0x0c, 0x0d, 0x0e, 0x0f,
    0x10, 0x11, 0x12, 0x13, 0x14, 0x15, 0x16, 0x17, 0x18, 0x19, 0x1a, 0x1b, 0x1c, 0x1d, 0x1e, 0x1f,
];

/// The longest text in digits: that of 64 bytes.
const MAX_DIGITS: usize = 128;

/// Whether the bytes are these, in hexadecimal.
pub fn are(bytes: &[u8], wanted: &str) -> bool {
    let count = wanted.len();
    if count > MAX_DIGITS {
        return false;
    }
    let mut digits = [0; MAX_DIGITS];
    hex::encode_to_slice(bytes, &mut digits[..count]).is_ok()
        && &digits[..count] == wanted.as_bytes()
}
