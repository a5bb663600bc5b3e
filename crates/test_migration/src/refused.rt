//! Boards whose image isn't taken over: nothing is written then, and the first cause is told.

use super::images::{BLOCKS, SEQUENCE, board_of, one, sixteen, turn_bit};
use board::Board;
use boards::MemBoard;
use epoch::{BoardVolume, OpenAnswer};
use std::alloc::Global;
use std::process::Abort;
use std::test::Fail;
use store_api::Mismatch;
use tee_base::NoMemory;
use test_old_image::OldRegions;
use tree_volume::TreeVolume;

/// A board isn't opened for this reason, and no block is written.
fn is_refused(rt: &impl Abort, alloc: Global, board: MemBoard, wanted: OpenAnswer) {
    let before = board.writes();
    match TreeVolume::open(alloc, board) {
        Ok(volume) => {
            drop(volume);
            assert!(rt; false);
        }
        Err(unopened) => {
            let (why, after) = (unopened.why, unopened.board.writes());
            drop(unopened);
            assert!(rt; why == wanted, "{why:?}");
            assert!(rt; after == before);
        }
    }
}

/// How many blocks a board has, its counter, and why it isn't opened.
const BY_THE_RULE: &[(u64, u64, OpenAnswer)] = &[
    (
        BLOCKS,
        6,
        OpenAnswer::Rollback {
            sequence: SEQUENCE,
            counter: 6,
        },
    ),
    (
        BLOCKS,
        3,
        OpenAnswer::Ahead {
            sequence: SEQUENCE,
            counter: 3,
        },
    ),
    (43_719, SEQUENCE, OpenAnswer::TooSmall(43_719)),
    (8_742, SEQUENCE, OpenAnswer::TooSmall(8_742)),
];

#[test]
fn the_rule_refuses_an_image(rt: HostRuntime) -> Result<(), Fail> {
    for (blocks, counter, why) in BY_THE_RULE.iter() {
        let board = board_of(rt.alloc(), &one(rt.alloc())?, *blocks, *counter)?;
        is_refused(&rt, rt.alloc(), board, *why);
    }
    Ok(())
}

/// Blocks of the image of one object, each with its tags where its bit is turned: that of the inode and that of the content. They
/// were computed by `bench/old_image`.
const INODE: (u64, Mismatch) = (
    552,
    Mismatch {
        found: [
            0x5e, 0x22, 0x4b, 0xee, 0x8b, 0x86, 0x54, 0xdf, 0x65, 0x56, 0x20, 0xe4, 0x10, 0x92,
            0x3e, 0xf6, 0x24, 0x83, 0xb4, 0xce, 0x14, 0x55, 0x3b, 0x58, 0x56, 0xa6, 0x1d, 0xd0,
            0x8c, 0xdb, 0x90, 0x42,
        ],
        kept: [
            0x56, 0xbe, 0xfe, 0x8e, 0xd3, 0x13, 0xe0, 0x5c, 0x89, 0x26, 0xfe, 0xc3, 0x42, 0x12,
            0x05, 0xc6, 0x3b, 0x7a, 0x5f, 0x69, 0xd8, 0x50, 0x1b, 0xf9, 0xf8, 0xbf, 0x77, 0x51,
            0xdb, 0x5b, 0xf0, 0x19,
        ],
    },
);

const CONTENT: (u64, Mismatch) = (
    555,
    Mismatch {
        found: [
            0xf8, 0x59, 0x3a, 0x5b, 0xba, 0x77, 0xe7, 0x9c, 0xce, 0xf7, 0x33, 0x5a, 0x06, 0xf1,
            0xe2, 0x00, 0xb5, 0x76, 0x46, 0x7b, 0xc2, 0xe7, 0x10, 0x83, 0xc8, 0x20, 0x0b, 0x2a,
            0x9c, 0xe8, 0x97, 0xa4,
        ],
        kept: [
            0xb9, 0x08, 0xb6, 0x2f, 0x18, 0xd3, 0x07, 0xe3, 0x82, 0x78, 0x96, 0x5b, 0xd4, 0x6b,
            0x0d, 0x3b, 0xad, 0x03, 0x48, 0xa9, 0xd6, 0x0c, 0x90, 0xfe, 0x07, 0xaa, 0x76, 0xd7,
            0x23, 0xc7, 0xc1, 0xb7,
        ],
    },
);

/// The content of the last of sixteen regions.
const LAST: (u64, Mismatch) = (
    8_235,
    Mismatch {
        found: [
            0xa0, 0xd8, 0x7f, 0x60, 0x62, 0xed, 0x94, 0xa8, 0xac, 0x0c, 0x78, 0x83, 0x12, 0xba,
            0x01, 0x81, 0xe6, 0x59, 0x10, 0xaa, 0xd3, 0x3c, 0xdc, 0xbf, 0x95, 0x9c, 0x1e, 0x2f,
            0x4e, 0x89, 0xab, 0x0b,
        ],
        kept: [
            0xe2, 0x9b, 0x1c, 0x93, 0x52, 0xf8, 0x1a, 0x0d, 0xf0, 0xf5, 0xdb, 0xd6, 0x15, 0x96,
            0xfe, 0x02, 0x9a, 0x4e, 0xc5, 0xdd, 0x0a, 0x2f, 0x3a, 0xae, 0x25, 0xd5, 0xdf, 0xed,
            0x04, 0xd1, 0xde, 0x43,
        ],
    },
);

/// A board with these regions, in which a bit of each of these blocks is turned.
fn changed(alloc: Global, regions: &OldRegions, blocks: &[u64]) -> Result<MemBoard, Fail> {
    let mut board = board_of(alloc, regions, BLOCKS, SEQUENCE)?;
    for block in blocks {
        let turned = turn_bit(&mut board, *block);
        if let Err(failed) = turned {
            drop(board);
            return Err(failed.into());
        }
    }
    Ok(board)
}

#[test]
fn the_first_two_tags_that_differ_are_told(rt: HostRuntime) -> Result<(), Fail> {
    let rows: [(&[u64], Mismatch); 3] = [
        (&[CONTENT.0], CONTENT.1),
        (&[INODE.0], INODE.1),
        (&[CONTENT.0, INODE.0], INODE.1),
    ];
    for (blocks, tags) in rows {
        let board = changed(rt.alloc(), &one(rt.alloc())?, blocks)?;
        is_refused(&rt, rt.alloc(), board, OpenAnswer::OldMismatch(tags));
    }
    Ok(())
}

/// A byte of a leaf: the region, the leaf, the place and the byte.
type Byte = (u8, u8, usize, u8);

/// Bytes that break rules in sixteen regions of one object each, and the region and the leaf that are told.
const BROKEN: &[(&[Byte], u8, u8)] = &[
    // an identifier of 65 bytes
    (&[(0, 1, 12, 65)], 0, 1),
    // an entry of no kind, of a leaf that no object has
    (&[(15, 0, 4 * 255, 3)], 15, 255),
    // a byte behind a content
    (&[(9, 2, 3, 1)], 9, 2),
    // the first region, and its least leaf
    (&[(9, 2, 3, 1), (7, 2, 3, 1), (7, 1, 12, 65)], 7, 1),
    // two objects with the same identifier, of which the greater leaf is told
    (
        &[
            (3, 0, 4 * 7, 1),
            (3, 0, 4 * 7 + 1, 7),
            (3, 7, 12, 1),
            (3, 7, 16, 0x61),
        ],
        3,
        7,
    ),
];

/// Sixteen regions with an object each, and with these bytes.
fn with_bytes(alloc: Global, bytes: &[Byte]) -> Result<OldRegions, NoMemory> {
    let mut regions = sixteen(alloc)?;
    for (region, leaf, at, byte) in bytes {
        regions.put(*region, *leaf, *at, &[*byte]);
    }
    Ok(regions)
}

#[test]
fn the_first_region_that_breaks_a_rule_is_told(rt: HostRuntime) -> Result<(), Fail> {
    for (bytes, region, leaf) in BROKEN.iter() {
        let regions = with_bytes(rt.alloc(), bytes)?;
        let board = board_of(rt.alloc(), &regions, BLOCKS, SEQUENCE)?;
        let (region, leaf) = (*region, *leaf);
        is_refused(
            &rt,
            rt.alloc(),
            board,
            OpenAnswer::OldGarbled { region, leaf },
        );
    }
    Ok(())
}

#[test]
fn tags_of_the_last_region_are_told_before_a_rule_of_the_first(
    rt: HostRuntime,
) -> Result<(), Fail> {
    let regions = with_bytes(rt.alloc(), BROKEN[0].0)?;
    let board = changed(rt.alloc(), &regions, &[LAST.0])?;
    is_refused(&rt, rt.alloc(), board, OpenAnswer::OldMismatch(LAST.1));
    Ok(())
}
