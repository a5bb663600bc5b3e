//! How an image is written: leaves, nodes and the header, each block sealed by itself.

ghost use Rattle.std.specs.Prelude.{◌<◌};
ghost use Rattle.test_old_image.specs.declared.layout.TheConstants.{FAN, PLACES};

use crate::layout::{
    BLOCKS, FAN, PLACES, ROOT, block_of, copy_in, group_place, leaf_place, region_place,
};
use crate::regions::OldRegions;
use board::{BLOCK, Board, BoardFailed};
use epoch::{Header, TreeEntry, entry_bytes, lay};
use seal::{Keys, Tags, seal_leaf};

/// The version of an image.
const VERSION: u32 = 1;

/// The bytes of an entry.
const ENTRY_BYTES: usize = 64;

/// An open gate.
const OPEN_GATE: [u8; BLOCK] = [0xA5; BLOCK];

/// The entry of what is all zeros.
const NOTHING: TreeEntry = TreeEntry {
    copy: 0,
    sequence: 0,
    iv: [0; 16],
    tag: [0; 32],
};

/// What all blocks of an image are sealed with.
#[derive(Drop)]
struct Seals {
    keys: Keys,
    sequence: u64,
}

/// Writes a block, where the board has it.
fn put<B: Board>(board: &mut B, block: u64, bytes: &[u8; BLOCK]) -> Result<(), BoardFailed> {
    if block >= board.blocks() {
        return Err(BoardFailed);
    }
    board.write(block, bytes)
}

/// Seals what a place has, writes it into a copy, and gives its entry.
fn write_sealed<B: Board>(
    board: &mut B,
    seals: &Seals,
    place: u64,
    plain: &[u8; BLOCK],
) -> Result<TreeEntry, BoardFailed>
    requires { place < PLACES }
{
    let mut cipher = [0; BLOCK];
    let tags = seal_leaf(&seals.keys, place, seals.sequence, plain, &mut cipher);
    let copy = copy_in(place);
    put(board, block_of(place, copy), &cipher)?;
    let Tags { iv, tag } = tags;
    Ok(TreeEntry {
        copy,
        sequence: seals.sequence,
        iv,
        tag,
    })
}

/// The same. Zeros aren't written.
fn write_place<B: Board>(
    board: &mut B,
    seals: &Seals,
    place: u64,
    plain: &[u8; BLOCK],
) -> Result<TreeEntry, BoardFailed>
    requires { place < PLACES }
{
    if plain.iter().all(|byte| *byte == 0) {
        return Ok(NOTHING);
    }
    write_sealed(board, seals, place, plain)
}

/// Puts an entry into a node.
fn put_entry(node: &mut [u8; BLOCK], slot: u64, entry: &TreeEntry)
    requires { slot < FAN }
{
    let at = ENTRY_BYTES * slot as usize;
    node[at..at + ENTRY_BYTES].copy_from_slice(&entry_bytes(entry));
}

/// Writes the leaves of a group of a region and its node, and gives the entry of that.
fn write_group<B: Board>(
    board: &mut B,
    seals: &Seals,
    regions: &OldRegions,
    region: u64,
    group: u64,
) -> Result<TreeEntry, BoardFailed>
    requires region { region < FAN }
    requires group { group < FAN }
{
    let mut node = [0; BLOCK];
    for slot in 0..16_u64 {
        let leaf = FAN * group + slot;
        let bytes = regions.leaf(region as u8, leaf as u8);
        let entry = write_place(board, seals, leaf_place(region, leaf), &bytes)?;
        put_entry(&mut node, slot, &entry);
    }
    write_place(board, seals, group_place(region, group), &node)
}

/// Writes a region and its node, and gives the entry of that.
fn write_region<B: Board>(
    board: &mut B,
    seals: &Seals,
    regions: &OldRegions,
    region: u64,
) -> Result<TreeEntry, BoardFailed>
    requires { region < FAN }
{
    let mut node = [0; BLOCK];
    for group in 0..16_u64 {
        let entry = write_group(board, seals, regions, region, group)?;
        put_entry(&mut node, group, &entry);
    }
    write_place(board, seals, region_place(region), &node)
}

/// Writes all regions and the root, and gives the entry of that. The root is written even where it is zeros.
fn write_tree<B: Board>(
    board: &mut B,
    seals: &Seals,
    regions: &OldRegions,
) -> Result<TreeEntry, BoardFailed> {
    let mut node = [0; BLOCK];
    for region in 0..16_u64 {
        let entry = write_region(board, seals, regions, region)?;
        put_entry(&mut node, region, &entry);
    }
    write_sealed(board, seals, ROOT, &node)
}

/// Writes an image of the first version with these regions, of this sequence, and syncs it. The counter stays.
///
/// # Errors
///
/// The board has too few blocks, or a call of it failed.
pub fn write_image<B: Board>(
    board: &mut B,
    regions: &OldRegions,
    sequence: u64,
) -> Result<(), BoardFailed> {
    let keys = Keys::of(&board.key());
    let seals = Seals { keys, sequence };
    let root = write_tree(board, &seals, regions)?;
    if board.blocks() < BLOCKS {
        return Err(BoardFailed);
    }
    let header = Header {
        version: VERSION,
        sequence,
        root,
    };
    lay(board, &header)?;
    put(board, 2 * (sequence % 2), &OPEN_GATE)?;
    board.sync()
}

/// Advances the counter so often.
pub fn raise_counter<B: Board>(board: &mut B, times: u64) -> Result<(), BoardFailed> {
    for _ in 0..times {
        board.advance()?;
    }
    Ok(())
}
