//! What the regions of an image hold: their leaves, and objects in them.

ghost use Rattle.std.specs.Prelude.{◌≡◌, ◌+◌, ◌*◌};
ghost use Rattle.test_old_image.specs.declared.layout.TheConstants.{REGION_LEAVES};

use crate::layout::{FAN, REGION_LEAVES};
use board::BLOCK;
use std::alloc::Global;
use tee_base::NoMemory;

/// The kinds of the entries of a map.
const INODE: u8 = 1;

const DATA: u8 = 2;

/// Where an inode leaf has the usage, the length of its content, that of its identifier, and the identifier.
const USAGE_AT: usize = 4;

const LENGTH_AT: usize = 8;

const IDENTIFIER_LENGTH_AT: usize = 12;

const IDENTIFIER_AT: usize = 16;

/// An object without a secret, and where it stands: its inode in this leaf, and its content in the leaves behind it.
#[derive(Clone, Copy)]
pub struct OldObject<'a> {
    pub region: u8,
    pub leaf: u8,
    pub kind: u32,
    pub usage: u32,
    pub id: &'a [u8],
    pub content: &'a [u8],
}

/// The leaves of all sixteen regions, one region after another.
#[derive(Drop)]
pub struct OldRegions {
    leaves: Vec<[u8; BLOCK]>,
}

/// The number of a leaf among all of them.
fn number_of(region: u8, leaf: u8) -> usize
    ensures { result ≡ REGION_LEAVES * region + leaf }
{
    REGION_LEAVES as usize * usize::from(region) + usize::from(leaf)
}

/// Puts bytes into a leaf, from a place on. Those behind its end fall away.
fn put(leaf: &mut [u8; BLOCK], at: usize, bytes: &[u8]) {
    for (byte, from) in leaf.iter_mut().skip(at).zip(bytes) {
        *byte = *from;
    }
}

/// The inode leaf of an object.
fn inode_leaf(object: &OldObject<'_>) -> [u8; BLOCK] {
    let mut leaf = [0; BLOCK];
    put(&mut leaf, 0, &object.kind.to_le_bytes());
    put(&mut leaf, USAGE_AT, &object.usage.to_le_bytes());
    put(
        &mut leaf,
        LENGTH_AT,
        &object.content.len().to_le_bytes()[..4],
    );
    put(
        &mut leaf,
        IDENTIFIER_LENGTH_AT,
        &object.id.len().to_le_bytes()[..1],
    );
    put(&mut leaf, IDENTIFIER_AT, object.id);
    leaf
}

impl OldRegions {
    /// Regions without objects.
    pub fn blank(alloc: Global) -> Result<OldRegions, NoMemory> {
        let mut leaves = Vec::new(alloc);
        leaves.resize((FAN * REGION_LEAVES) as usize, [0; BLOCK])?;
        Ok(OldRegions { leaves })
    }

    /// The bytes of a leaf; zeros where there is no such region.
    pub fn leaf(&self, region: u8, leaf: u8) -> [u8; BLOCK] {
        match self.leaves.get(number_of(region, leaf)) {
            Some(bytes) => *bytes,
            None => [0; BLOCK],
        }
    }

    /// Puts bytes into a leaf, from a place on.
    pub fn put(&mut self, region: u8, leaf: u8, at: usize, bytes: &[u8]) {
        if let Some(held) = self.leaves.get_mut(number_of(region, leaf)) {
            put(held, at, bytes);
        }
    }

    /// Puts an entry into the map of a region.
    fn put_entry(&mut self, region: u8, leaf: u8, kind: u8, inode: u8, index: u8) {
        self.put(region, 0, 4 * usize::from(leaf), &[kind, inode, index, 0]);
    }

    /// Puts an object into its region. What has no leaf any more is left out.
    pub fn put_object(&mut self, object: &OldObject<'_>) {
        let (region, inode) = (object.region, object.leaf);
        self.put_entry(region, inode, INODE, inode, 0);
        self.put(region, inode, 0, &inode_leaf(object));
        let (mut leaf, mut index) = (inode, 0_u8);
        for piece in object.content.chunks(BLOCK) {
            let Some(next) = leaf.checked_add(1) else {
                return;
            };
            leaf = next;
            self.put_entry(region, leaf, DATA, inode, index);
            self.put(region, leaf, 0, piece);
            index = index.wrapping_add(1);
        }
    }
}
