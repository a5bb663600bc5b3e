//! Whether a run wrote an image of an older version anew.

use crate::why::Ended;
use std::alloc::Global;
use std::fs;
use std::io::Read;
use std::rt::Files;
use tee_top::Status;

/// The byte of which an open gate is made.
const OPEN: u8 = 0xa5;

fn is_open(byte: &u8) -> bool {
    *byte == OPEN
}

/// The sequence and the version of the header of a slot, its gate before it; none where the gate isn't open. No tag is looked at.
fn header_in(slot: &[u8; 2048]) -> Option<(u64, u32)> {
    if !slot[..1024].iter().all(is_open) {
        return None;
    }
    let version = u32::from_le_bytes([slot[1032], slot[1033], slot[1034], slot[1035]]);
    let mut sequence = [0; 8];
    sequence.copy_from_slice(&slot[1040..1048]);
    Some((u64::from_le_bytes(sequence), version))
}

/// The version of the header that counts in an image, as its first blocks tell it; none where there is none, or where the
/// image is no plain file.
pub fn version_in<R: Files>(rt: &R, image: &str) -> Option<u32> {
    if !fs::metadata(rt, image).ok()?.is_file() {
        return None;
    }
    let mut file = fs::open(rt, image).ok()?;
    let (mut first, mut second) = ([0; 2048], [0; 2048]);
    file.read_exact(&mut first).ok()?;
    file.read_exact(&mut second).ok()?;
    match (header_in(&first), header_in(&second)) {
        (Some((one, _)), Some((other, version))) if one < other => Some(version),
        (Some((_, version)), _) | (None, Some((_, version))) => Some(version),
        (None, None) => None,
    }
}

/// How a run ended well, with the version that its image had and the one that it has now, where they differ.
pub fn with_version(alloc: Global, ended: Ended, before: Option<u32>, now: Option<u32>) -> Ended {
    match (ended.status, before, now) {
        (Status::Done, Some(before), Some(now)) if before < now => Ended {
            status: Status::Done,
            why: format!(in alloc;
                "the image was of version {before}, and is of version {now} from now on"
            ).ok(),
        },
        _ => ended,
    }
}
