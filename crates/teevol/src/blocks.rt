//! Which place a block holds.

use crate::ended::{Ended, Told};
use crate::json::comma;
use crate::names::name_of;
use board::Board;
use inspect::{Spot, spot_of};
use std::alloc::{AllocError, Global};
use tree_paths::first_version;
use tree_paths::places::{BANDS, FIRST_BAND, FIRST_BLOCK, FIRST_GROUP, FIRST_REGION};

/// What a block holds.
#[derive(Clone, Copy)]
enum Holds {
    /// The gate of this slot.
    Gate(u64),
    /// The header of this slot.
    Header(u64),
    /// A copy of a place of an older version.
    Old { place: u64, copy: u64 },
    /// A copy of a place.
    Place { place: u64, copy: u64 },
}

/// What a block holds, by its number.
fn held_by(block: u64) -> Holds {
    if block < first_version::FIRST_BLOCK {
        if block % 2 == 0 {
            Holds::Gate(block / 2)
        } else {
            Holds::Header(block / 2)
        }
    } else if block < FIRST_BLOCK {
        let behind = block - first_version::FIRST_BLOCK;
        Holds::Old {
            place: behind / 2,
            copy: behind % 2,
        }
    } else {
        let behind = block - FIRST_BLOCK;
        Holds::Place {
            place: behind / 2,
            copy: behind % 2,
        }
    }
}

/// How many groups a region has.
const GROUPS: u64 = 64;

/// Writes which node this is.
fn write_node(text: &mut String, place: u64) -> Result<(), AllocError> {
    if place < FIRST_REGION {
        text.push_str("the root")
    } else if place < FIRST_BAND {
        write!(text, "the node of region {}", name_of(place - FIRST_REGION))
    } else if place < FIRST_GROUP {
        let behind = place - FIRST_BAND;
        write!(
            text,
            "band {} of region {}",
            behind % BANDS,
            name_of(behind / BANDS)
        )
    } else {
        let behind = place - FIRST_GROUP;
        write!(
            text,
            "group {} of region {}",
            behind % GROUPS,
            name_of(behind / GROUPS)
        )
    }
}

/// Writes what a place is.
fn write_place(text: &mut String, place: u64) -> Result<(), AllocError> {
    match spot_of(place) {
        Spot::Node => write_node(text, place),
        Spot::Leaf { region, leaf } => {
            let name = name_of(region);
            write!(text, "leaf {leaf} of region {name}")
        }
    }
}

/// Writes a block as text.
fn write_block(text: &mut String, block: u64) -> Result<(), AllocError> {
    write!(text, "block {block}: ")?;
    match held_by(block) {
        Holds::Gate(slot) => write!(text, "the gate of slot {slot}")?,
        Holds::Header(slot) => write!(text, "the header of slot {slot}")?,
        Holds::Old { place, copy } => write!(text, "copy {copy} of place {place} of version 1")?,
        Holds::Place { place, copy } => {
            write!(text, "copy {copy} of place {place}, ")?;
            write_place(text, place)?
        }
    }
    text.push_str("\n")
}

/// Writes a block as an object of JSON.
fn write_json_block(text: &mut String, comma: &str, block: u64) -> Result<(), AllocError> {
    write!(text, "{comma}{{\"block\":{block},")?;
    match held_by(block) {
        Holds::Gate(slot) => write!(text, "\"gate\":{slot}")?,
        Holds::Header(slot) => write!(text, "\"header\":{slot}")?,
        Holds::Old { place, copy } => {
            write!(text, "\"version\":1,\"place\":{place},\"copy\":{copy}")?
        }
        Holds::Place { place, copy } => {
            write!(text, "\"place\":{place},\"copy\":{copy},\"what\":\"")?;
            write_place(text, place)?;
            text.push_str("\"")?
        }
    }
    text.push_str("}")
}

fn is_zero(byte: &u8) -> bool {
    *byte == 0
}

/// Whether a block of the board holds anything but zeros.
fn is_used<B: Board>(board: &mut B, block: u64) -> Result<bool, Ended> {
    let mut bytes = [0; 1024];
    if block < board.blocks() && board.read(block, &mut bytes).is_err() {
        return Err(Ended::BoardFault);
    }
    Ok(!bytes.iter().all(is_zero))
}

/// Writes all blocks that aren't zeros.
fn write_all_blocks<B: Board>(text: &mut String, board: &mut B, json: bool) -> Result<(), Ended> {
    let mut is_first = true;
    for block in 0..board.blocks() {
        if !is_used(board, block)? {
            continue;
        }
        if json {
            write_json_block(text, comma(is_first), block)?;
        } else {
            write_block(text, block)?;
        }
        is_first = false;
    }
    Ok(())
}

/// Tells what each block of a board holds that isn't all zeros.
pub fn blocks<B: Board>(alloc: Global, board: &mut B, json: bool) -> Result<Told, Ended> {
    let mut text = String::new(alloc);
    if json {
        text.push_str("{\"blocks\":[")?;
    }
    write_all_blocks(&mut text, board, json)?;
    if json {
        text.push_str("]}\n")?;
    }
    Ok(Told {
        bytes: text.into_bytes(),
        is_sound: true,
    })
}
