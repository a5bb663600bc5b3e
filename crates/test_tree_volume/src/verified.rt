//! A volume whose places are all verified: as it was made, with one byte changed, and with a block of an older image.

use super::steps::{Row, run};
use super::volumes::{BLOCKS, KEY};
use board::Board;
use boards::MemBoard;
use std::alloc::Global;
use std::process::Abort;
use std::test::Fail;
use store_api::Mismatch;
use tree_volume::VerifyAnswer;

/// The place of leaf 5 of region 0.
const PLACE: u64 = 1_105 + 5;

/// The block of its copy 1, which the first commit writes, and the third.
const BLOCK: u64 = 8_742 + 2 * PLACE + 1;

/// Wrong is the leaf that is filled with 0x11, sealed for sequence 2, where one bit of byte 700 is turned. The tags here were
/// computed by another program.
const CHANGED: VerifyAnswer = VerifyAnswer::Wrong {
    place: PLACE,
    mismatch: Mismatch {
        found: [
            0xF3, 0x0F, 0x3A, 0xD2, 0x48, 0xD4, 0x6E, 0x65, 0xCC, 0x6E, 0x59, 0x11, 0x86, 0x3F,
            0x54, 0x9D, 0x85, 0xF6, 0x3F, 0xBB, 0x32, 0x84, 0x5A, 0x15, 0x4D, 0x36, 0xBD, 0xA5,
            0x2D, 0xB8, 0x49, 0x9A,
        ],
        kept: [
            0xF0, 0xB3, 0x60, 0xB3, 0x6F, 0xCE, 0x9C, 0xB6, 0xC9, 0x1C, 0x6F, 0xE2, 0xAC, 0xF2,
            0xBD, 0x6B, 0x19, 0xAF, 0x8F, 0xA0, 0x7D, 0x81, 0xA0, 0x35, 0x60, 0x35, 0xCE, 0xAA,
            0x8F, 0xA8, 0x29, 0x57,
        ],
    },
};

/// Wrong is the leaf that is filled with 0x33, sealed for sequence 4, where the older block stands in its place.
const OLDER: VerifyAnswer = VerifyAnswer::Wrong {
    place: PLACE,
    mismatch: Mismatch {
        found: [
            0x63, 0x81, 0x75, 0xE1, 0x7D, 0xA4, 0x37, 0x8C, 0xBD, 0x9A, 0xDC, 0x88, 0x8C, 0xBB,
            0x1B, 0x84, 0xED, 0xA8, 0x74, 0xFC, 0xCA, 0x3B, 0xA7, 0xFC, 0xC1, 0x47, 0x38, 0x98,
            0xD8, 0xA0, 0x03, 0xE5,
        ],
        kept: [
            0xFD, 0x16, 0xAA, 0x13, 0xC0, 0x5B, 0x76, 0x92, 0x67, 0x95, 0xC0, 0xC6, 0x85, 0x7D,
            0xD4, 0xA3, 0xAE, 0xB7, 0x19, 0x9D, 0x0C, 0xEC, 0x0B, 0x4A, 0x1A, 0xF7, 0xB8, 0x78,
            0x71, 0x32, 0xED, 0xAE,
        ],
    },
};

/// Makes the calls in order on the volume of a blank board, and gives the board.
fn made(rt: &impl Abort, alloc: Global, rows: &[Row]) -> Result<MemBoard, Fail> {
    run(rt, alloc, MemBoard::blank(alloc, KEY, BLOCKS)?, rows)
}

/// The bytes of the leaf's copy.
fn block_of<B: Board>(rt: &impl Abort, board: &mut B) -> [u8; 1024] {
    let mut bytes = [0; 1024];
    assert!(rt; board.blocks() >= BLOCKS);
    assert!(rt; board.read(BLOCK, &mut bytes).is_ok());
    bytes
}

/// Puts other bytes there.
fn put<B: Board>(rt: &impl Abort, board: &mut B, bytes: &[u8; 1024]) {
    assert!(rt; board.blocks() >= BLOCKS);
    assert!(rt; board.write(BLOCK, bytes).is_ok());
    assert!(rt; board.sync().is_ok());
}

/// A blank board has a root alone; a leaf has the root, a region, a band and a group above it. What a read keeps isn't
/// counted on.
const WHOLE: &[Row] = &[
    Row::Verify(Ok(1)),
    Row::ReplaceOne(0x11, 2),
    Row::Verify(Ok(5)),
    Row::Verify(Ok(5)),
    Row::Sequence(2),
];

/// A volume that is wrong stays as it is; one whose board fails is lost.
const WRONG: &[Row] = &[
    Row::Verify(Err(CHANGED)),
    Row::Verify(Err(CHANGED)),
    Row::Sequence(2),
    Row::Fuse(4),
    Row::Verify(Err(VerifyAnswer::Failed)),
    Row::Lost,
    Row::Verify(Err(VerifyAnswer::Lost)),
];

#[test]
fn each_place_is_verified(rt: HostRuntime) -> Result<(), Fail> {
    let mut board = made(&rt, rt.alloc(), WHOLE)?;
    let mut bytes = block_of(&rt, &mut board);
    bytes[700] ^= 1;
    put(&rt, &mut board, &bytes);
    drop(run(&rt, rt.alloc(), board, WRONG)?);
    Ok(())
}

/// Two commits more of the leaf.
const LATER: &[Row] = &[
    Row::ReplaceOne(0x22, 3),
    Row::ReplaceOne(0x33, 4),
    Row::Verify(Ok(5)),
];

#[test]
fn an_older_block_is_found(rt: HostRuntime) -> Result<(), Fail> {
    let mut board = made(&rt, rt.alloc(), WHOLE)?;
    let older = block_of(&rt, &mut board);
    let mut board = run(&rt, rt.alloc(), board, LATER)?;
    put(&rt, &mut board, &older);
    drop(run(&rt, rt.alloc(), board, &[Row::Verify(Err(OLDER))])?);
    Ok(())
}
