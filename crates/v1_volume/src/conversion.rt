//! The leaves of the second form that a region of the first one becomes.

ghost use Rattle.std.specs.Prelude.{◌≡◌, ◌<◌, ℕ, IfOk, IsTrue, length, map, replicate};
ghost use Rattle.std.specs.List.{range_with_len};
ghost use Rattle.store_api.specs.Ascending.{is_above_all};
ghost use Rattle.region_plan.specs.Plans.{with_leaves};
ghost use Rattle.v1_volume.specs.Checking.{leaf_in};
ghost use Rattle.v1_volume.specs.Renumbering.{converted_leaf, entry_after, is_taken as was_used, map_byte, new_number, number_of as number_for, old_number};

use crate::entries::{OLD_LEAVES, entry_of, is_used};
use crate::old::OldRegion;
use region_plan::{Entry, all_zero};
use std::alloc::Global;
use store_api::{Leaf, Leaves};
use tee_base::NoMemory;
use tee_base::limits::BLOCK_BYTES;

/// How many leaves of the second form are the map.
const MAP_LEAVES: usize = 4;
/// What the numbers of the leaves in use are below: those of the first form but its map, and as many more as there are leaves of the map.
const USED_LEAVES: usize = 259;

/// The number that a leaf of the second form had.
fn number_before(leaf: usize) -> usize
    ensures { result ≡ old_number leaf }
{
    if leaf < OLD_LEAVES {
        leaf
    } else {
        leaf - (OLD_LEAVES - 1)
    }
}

/// The number that a leaf of the first form gets.
fn number_after(leaf: u32) -> u32
    requires { leaf < 256 }
    ensures { result ≡ new_number leaf }
{
    if leaf < 4 { 255 + leaf } else { leaf }
}

/// Whether a leaf of the second form was one of the first that is in use.
fn is_taken(leaves: &[[u8; BLOCK_BYTES]], leaf: usize) -> bool
    requires { length leaves.now ≡ 256 }
    ensures { result ≡ was_used (leaf_in leaves.now) leaf }
{
    MAP_LEAVES <= leaf && (leaf < USED_LEAVES && is_used(leaves, number_before(leaf)))
}

/// The number in the map of a leaf of the second form.
fn map_number(leaves: &[[u8; BLOCK_BYTES]], leaf: usize) -> u32
    requires { length leaves.now ≡ 256 }
    ensures { result ≡ number_for (entry_after (leaf_in leaves.now) leaf) }
{
    if !is_taken(leaves, leaf) {
        return 0;
    }
    let entry = entry_of(leaves, number_before(leaf));
    entry.kind + 4 * number_after(entry.inode) + 4096 * entry.index
}

/// A leaf of the map.
fn map_leaf(leaves: &[[u8; BLOCK_BYTES]], leaf: usize) -> [u8; BLOCK_BYTES]
    requires whole { length leaves.now ≡ 256 }
    requires leaf { leaf < 4 }
    ensures bytes { result
        ≡ map (λ k. map_byte (leaf_in leaves.now) leaf k) (range_with_len 0 BLOCK_BYTES) }
    ensures long { length result ≡ BLOCK_BYTES }
{
    let mut block = [0; BLOCK_BYTES];
    for k in 0..BLOCK_BYTES {
        let number = map_number(leaves, 256 * leaf + k / 4);
        block[k] = number.to_le_bytes()[k % 4];
    }
    block
}

/// A leaf of the second form.
#[tactic(auto, unfolding(crate::specs::Renumbering::converted_leaf))]
fn leaf_after(leaves: &[[u8; BLOCK_BYTES]], leaf: usize) -> [u8; BLOCK_BYTES]
    requires { length leaves.now ≡ 256 }
    ensures leaf { result ≡ converted_leaf (leaf_in leaves.now) leaf }
    ensures long { length result ≡ BLOCK_BYTES }
{
    if leaf < MAP_LEAVES {
        return map_leaf(leaves, leaf);
    }
    if is_taken(leaves, leaf) {
        return leaves[number_before(leaf)];
    }
    [0; BLOCK_BYTES]
}

/// The leaves of the second form that stand for the store of a region of the first one. It names those that aren't zeros, in
/// ascending order.
pub fn convert(alloc: Global, region: &OldRegion) -> Result<Leaves, NoMemory>
    ensures named { IfOk result (λ named. IsTrue (is_above_all named 259)) }
    ensures converted { IfOk result (λ named. (i : ℕ)
        → with_leaves named (λ number. replicate BLOCK_BYTES 0) i
        ≡ converted_leaf (leaf_in region.now) i) }
{
    let leaves = region.as_slice();
    let mut named = Leaves::none(alloc);
    for leaf in 0..USED_LEAVES {
        let bytes = leaf_after(leaves, leaf);
        if !all_zero(&bytes) {
            named.push(Leaf {
                number: leaf as u16,
                bytes,
            })?;
        }
    }
    Ok(named)
}
