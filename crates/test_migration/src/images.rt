//! Boards with an image of the first version, and the objects in it.

use board::{Board, BoardFailed};
use boards::MemBoard;
use std::alloc::Global;
use std::test::Fail;
use tee_base::NoMemory;
use test_old_image::{OldObject, OldRegions, raise_counter, write_image};

/// The key of each board.
const KEY: [u8; 32] = [7; 32];

/// How many blocks a board has to have.
pub const BLOCKS: u64 = 43_720;

/// The sequence of each image.
pub const SEQUENCE: u64 = 5;

/// The object of a region: its inode is leaf 1, and its content is in leaf 2.
pub const OBJECT: OldObject<'static> = OldObject {
    region: 0,
    leaf: 1,
    kind: 0xA000_00BF,
    usage: 0xFFFF_FFFF,
    id: b"a",
    content: b"old",
};

/// The first region with that object.
pub fn one(alloc: Global) -> Result<OldRegions, NoMemory> {
    let mut regions = OldRegions::blank(alloc)?;
    regions.put_object(&OBJECT);
    Ok(regions)
}

/// Each region with such an object.
pub fn sixteen(alloc: Global) -> Result<OldRegions, NoMemory> {
    let mut regions = OldRegions::blank(alloc)?;
    for region in 0..16_u8 {
        regions.put_object(&OldObject { region, ..OBJECT });
    }
    Ok(regions)
}

/// Gives the board an image of these regions, and this counter.
fn fill<B: Board>(board: &mut B, regions: &OldRegions, counter: u64) -> Result<(), BoardFailed> {
    write_image(board, regions, SEQUENCE)?;
    raise_counter(board, counter)
}

/// A board of so many blocks with an image of these regions, and with this counter.
pub fn board_of(
    alloc: Global,
    regions: &OldRegions,
    blocks: u64,
    counter: u64,
) -> Result<MemBoard, Fail> {
    let mut board = MemBoard::blank(alloc, KEY, blocks)?;
    let filled = fill(&mut board, regions, counter);
    match filled {
        Ok(()) => Ok(board),
        Err(failed) => {
            drop(board);
            Err(failed.into())
        }
    }
}

/// Turns a bit of a block.
pub fn turn_bit<B: Board>(board: &mut B, block: u64) -> Result<(), BoardFailed> {
    if block >= board.blocks() {
        return Err(BoardFailed);
    }
    let mut bytes = [0; 1024];
    board.read(block, &mut bytes)?;
    bytes[700] ^= 1;
    board.write(block, &bytes)?;
    board.sync()
}

/// The tag of the header of the image of one object, which covers all of it. It was computed by `bench/old_image`.
const HEADER_TAG: [u8; 32] = [
    0x41, 0x92, 0xd1, 0x82, 0xff, 0xe7, 0x37, 0x00, 0xfc, 0x2b, 0xdc, 0x4f, 0x0c, 0xe6, 0xec, 0x2f,
    0xfe, 0x05, 0xf6, 0x0e, 0x9d, 0x3b, 0xf9, 0xe8, 0x4a, 0x33, 0x85, 0xf9, 0xe5, 0x86, 0x4d, 0xb7,
];

/// The block of the header of slot 1.
fn header_block<B: Board>(board: &mut B) -> Result<[u8; 1024], BoardFailed> {
    if board.blocks() < 4 {
        return Err(BoardFailed);
    }
    let mut block = [0; 1024];
    board.read(3, &mut block)?;
    Ok(block)
}

#[test]
fn an_image_has_the_tag_of_another_program(rt: HostRuntime) -> Result<(), Fail> {
    let mut board = board_of(rt.alloc(), &one(rt.alloc())?, BLOCKS, SEQUENCE)?;
    let block = header_block(&mut board)?;
    let tag: &[u8] = &block[88..120];
    let computed: &[u8] = &HEADER_TAG;
    assert!(&rt; tag == computed);
    Ok(())
}
