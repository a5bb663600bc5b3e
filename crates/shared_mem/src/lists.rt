//! The blocks of all clients, each read or changed by one scan.

ghost use Rattle.std.specs.Prelude.{◌≡◌, ◌≤◌, ◌+◌, IfSome, count_by, length, option_map, position};
ghost use Rattle.std.specs.List.{list_any};
ghost use Rattle.shared_mem.specs.Blocks.{IsBlocks, block_at, is_at, is_of, with_bytes, without_block};

use crate::block::Block;
use crate::blocks::PLACES;
use arrayvec::ArrayVec;
use std::alloc::Global;

/// How many blocks the client has.
pub fn count_of(blocks: &[Block], client: u8) -> usize
    ensures { result ≡ count_by (is_of client) blocks.now }
{
    blocks.iter().filter(|b| b.client == client).count()
}

/// Whether the client has a block of this number.
pub fn has(blocks: &[Block], client: u8, number: u32) -> bool
    ensures { result ≡ list_any (is_at client number) blocks.now }
{
    blocks.iter().any(|b| b.is_at(client, number))
}

/// The client's block of this number.
pub fn find(blocks: &[Block], client: u8, number: u32) -> Option<&Block>
    ensures { option_map (λ block. block.now) result ≡ block_at blocks.now client number }
{
    blocks.iter().find(|b| b.is_at(client, number))
}

/// The place of the client's block of this number.
fn place_of(blocks: &[Block], client: u8, number: u32) -> Option<usize>
    ensures { result ≡ position (is_at client number) blocks.now }
{
    blocks.iter().position(|b| b.is_at(client, number))
}

/// Writes bytes into the client's block of this number from a place on, in place.
pub fn write(blocks: &mut [Block], alloc: Global, client: u8, number: u32, at: u32, bytes: &[u8])
    requires { IfSome (block_at blocks.old client number)
        (λ block. at + length bytes.now ≤ length block.bytes) }
    ensures blocks { blocks.new ≡ with_bytes blocks.old client number at bytes.now }
    ensures keeps { IsBlocks blocks.old → IsBlocks blocks.new }
{
    if let Some(place) = place_of(blocks, client, number) {
        blocks[place].write(alloc, at, bytes);
    }
}

/// Takes out the client's block of this number.
pub fn take_out(blocks: &mut ArrayVec<Block, PLACES, Global>, client: u8, number: u32)
    requires { count_by (is_at client number) blocks.old.items ≤ 1 }
    ensures blocks { blocks.new.items ≡ without_block blocks.old.items client number }
    ensures keeps { IsBlocks blocks.old.items → IsBlocks blocks.new.items }
{
    if let Some(place) = place_of(blocks.as_slice(), client, number) {
        let _block = blocks.remove(place);
    }
}
