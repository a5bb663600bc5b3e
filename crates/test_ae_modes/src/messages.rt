//! Each row of the table sealed and opened, cut at every place, and what is refused.

ghost use Rattle.std.specs.Prelude.{◌≡◌, IfSome};

use crate::beginning::begin;
use crate::rows::{ROWS, Row};
use ae_modes::{AeAnswer, AeWay, Gcm, gcm};
use aes_core::{WrongKeyLength, expand};
use std::process::Abort;
use std::test::Fail;

/// The longest message of a row, and the longest nonce.
const LONGEST: usize = 64;

/// The start of a row's message.
fn begin_row(row: &Row, way: AeWay) -> Option<Gcm>
    ensures { IfSome result (λ g. g.way ≡ way) }
{
    if row.nonce.len() > LONGEST {
        return None;
    }
    let Ok(key) = expand(row.key) else {
        return None;
    };
    match begin(key, way, row.nonce, row.aad) {
        Ok(message) => Some(message),
        Err(_) => None,
    }
}

/// A row is sealed to its ciphertext and its tag, where its message is cut there.
fn seals(row: &Row, cut: usize) -> Option<bool> {
    let mut message = begin_row(row, AeWay::Encrypt)?;
    let mut output = [0; LONGEST];
    let mut tag = [0; 16];
    let length = row.plain.len();
    if length > LONGEST || cut > length {
        return None;
    }
    message.update(&row.plain[..cut], &mut output[..cut]).ok()?;
    message
        .seal(&row.plain[cut..], &mut output[cut..], &mut tag)
        .ok()?;
    Some(&output[..length] == row.sealed && tag.as_slice() == row.tag)
}

/// A row is opened to its message, where its ciphertext is cut there.
fn opens(row: &Row, cut: usize) -> Option<bool> {
    let mut message = begin_row(row, AeWay::Decrypt)?;
    let mut output = [0; LONGEST];
    let length = row.sealed.len();
    if length > LONGEST || cut > length {
        return None;
    }
    message.update(&row.sealed[..cut], &mut output[..cut]).ok()?;
    message
        .open(&row.sealed[cut..], &mut output[cut..], row.tag)
        .ok()?;
    Some(&output[..length] == row.plain)
}

#[test]
fn standard_messages(rt: HostRuntime) {
    for row in ROWS {
        for cut in 0..=row.plain.len() {
            assert!(rt; seals(row, cut) == Some(true));
            assert!(rt; opens(row, cut) == Some(true));
        }
    }
}

/// A row isn't opened with this tag, and nothing is written.
fn refuses_tag(row: &Row, tag: &[u8]) -> bool {
    let mut output = [0; LONGEST];
    match begin_row(row, AeWay::Decrypt) {
        Some(mut message) => {
            matches!(
                message.open(row.sealed, &mut output, tag),
                Err(AeAnswer::BadTag)
            ) && output == [0; LONGEST]
        }
        None => false,
    }
}

#[test]
fn other_tags(rt: HostRuntime) {
    for row in ROWS {
        let mut tag = [0; 17];
        if row.tag.len() == 16 {
            tag[..16].copy_from_slice(row.tag);
        }
        assert!(rt; refuses_tag(row, &tag));
        assert!(rt; refuses_tag(row, &tag[..15]));
        tag[0] ^= 1;
        assert!(rt; refuses_tag(row, &tag[..16]));
    }
}

/// The start of a message under the key of zeros.
fn message_of_zeros(
    nonce: &[u8; 12],
    tag_bits: u32,
) -> Result<Result<Gcm, AeAnswer>, WrongKeyLength> {
    Ok(gcm(expand(&[0; 16])?, AeWay::Encrypt, nonce, tag_bits))
}

#[test]
fn refusals(rt: HostRuntime) -> Result<(), Fail> {
    let key = expand(&[0; 16])?;
    assert!(rt; matches!(gcm(key, AeWay::Encrypt, &[], 100), Err(AeAnswer::NoNonce)));
    assert!(rt;
        matches!(
            message_of_zeros(&[0; 12], 100)?,
            Err(AeAnswer::WrongTag(100))
        )
    );
    let mut message = gcm(key, AeWay::Encrypt, &[0; 12], 96)?;
    let mut output = [0; 4];
    let mut tag = [0; 12];
    assert!(rt; message.update(&[0; 5], &mut output) == Err(AeAnswer::ShortBuffer(5)));
    assert!(rt;
        message.seal(&[0; 4], &mut output, &mut tag[..11]) == Err(AeAnswer::ShortBuffer(12))
    );
    assert!(rt; message.update(&[0; 1], &mut output) == Ok(1));
    assert!(rt; message.aad(&[]) == Err(AeAnswer::Late));
    assert!(rt; message.seal(&[0; 3], &mut output, &mut tag) == Ok(3));
    assert!(rt; message.aad(&[1]) == Ok(()));
    Ok(())
}
