//! The leaves of a region in memory.
ghost use Rattle.std.specs.Prelude.{◌≡◌, [], None, Some, true, refl, slice_index_or, vec_len};
ghost use Rattle.store_api.specs.Foundations.{no_foundation};

use region_plan::LeafSource;
use std::alloc::Global;
use store_api::{LeafAnswer, Leaves};
use tee_base::NoMemory;
use tee_base::limits::BLOCK_BYTES;

/// As many leaves as a region has in any form.
const LEAVES: usize = 1024;

#[derive(Drop)]
pub struct Memory {
    leaves: Vec<[u8; BLOCK_BYTES]>,
    pub lost: bool,
    ghost whole: { vec_len leaves ≡ 1024 },
}

impl LeafSource for Memory {
    ghost keeper = { record {
      tells_reads = true;
      leaves = 1024;
      held = λ m. record { leaves = λ r l. slice_index_or m.leaves.items l []; sequence = 0; version = 0 };
      condition = λ m. record { lost = m.lost; faults = 0; writes = 0; foundation = no_foundation };
      honest_below = λ m. Unit {0};
      honest = λ m. Unit {0};
      text = λ m r l. slice_index_or m.leaves.items l [];
      damage = λ m r l. None;
      moment = λ m. 0;
      left_since = λ m t o. o ≡ Some (record { leaves = λ r l. slice_index_or m.leaves.items l []; sequence = 0; version = 0 });
    } };

    ghost region = { λ m. 0 };

    ghost rests = { λ m h works. record { only = λ o left. left } };

    ghost sound = { λ m h works leaf below. refl };

    ghost found = { λ m h works leaf below. refl };

    ghost honest_tells = { λ m h. refl };

    fn leaf(&mut self, number: u16, into: &mut [u8; BLOCK_BYTES]) -> Result<(), LeafAnswer> {
        if self.lost {
            return Err(LeafAnswer::Lost);
        }
        *into = self.leaves[number as usize];
        Ok(())
    }

    fn faults(&self) -> u64 {
        0
    }

    fn is_lost(&self) -> bool {
        self.lost
    }
}

/// A byte of a leaf: the leaf, the place and the byte.
pub type Byte = (u16, u16, u8);

/// Leaves of zeros but for these bytes.
pub fn with(alloc: Global, bytes: &[Byte]) -> Result<Memory, NoMemory> {
    let mut leaves = Vec::new(alloc);
    leaves.resize(LEAVES, [0; BLOCK_BYTES])?;
    let mut memory = Memory {
        leaves,
        lost: false,
    };
    set(&mut memory, bytes);
    Ok(memory)
}

/// Sets bytes of leaves.
pub fn set(memory: &mut Memory, bytes: &[Byte]) {
    for (leaf, place, byte) in bytes {
        if usize::from(*leaf) < LEAVES && usize::from(*place) < BLOCK_BYTES {
            memory.leaves[*leaf as usize][*place as usize] = *byte;
        }
    }
}

/// Writes leaves, as a commit does.
pub fn commit(memory: &mut Memory, leaves: &Leaves) {
    for leaf in leaves.as_slice() {
        if usize::from(leaf.number) < LEAVES {
            memory.leaves[leaf.number as usize] = leaf.bytes;
        }
    }
}

// Leaf 2 is the inode of `b`, without content; leaf 5 that of `a`, with 1,026 bytes in the leaves 9 and 3.
pub const OBJECTS: &[Byte] = &[
    (0, 8, 1),
    (0, 9, 2),
    (0, 20, 1),
    (0, 21, 5),
    (0, 36, 2),
    (0, 37, 5),
    (0, 12, 2),
    (0, 13, 5),
    (0, 14, 1),
    (2, 0, 7),
    (2, 12, 1),
    (2, 16, 0x62),
    (5, 0, 8),
    (5, 4, 9),
    (5, 8, 2),
    (5, 9, 4),
    (5, 12, 1),
    (5, 13, 2),
    (5, 16, 0x61),
    (5, 80, 0x31),
    (5, 81, 0x32),
    (9, 1022, 21),
    (9, 1023, 22),
    (3, 0, 23),
    (3, 1, 24),
];

// The same in the second form: leaf 6 is the inode of `b`, leaf 700 that of `a`, with its data in the leaves 9 and 1023. The entry of
// leaf 700 is at 752 of leaf 2, that of leaf 1023 at 1020 of leaf 3. An entry is `kind + 4 inode + 4096 index`.
pub const OBJECTS_TWO: &[Byte] = &[
    (0, 24, 0x19),
    (2, 752, 0xF1),
    (2, 753, 0x0A),
    (0, 36, 0xF2),
    (0, 37, 0x0A),
    (3, 1020, 0xF2),
    (3, 1021, 0x1A),
    (6, 0, 7),
    (6, 12, 1),
    (6, 16, 0x62),
    (700, 0, 8),
    (700, 4, 9),
    (700, 8, 2),
    (700, 9, 4),
    (700, 12, 1),
    (700, 13, 2),
    (700, 16, 0x61),
    (700, 80, 0x31),
    (700, 81, 0x32),
    (9, 1022, 21),
    (9, 1023, 22),
    (1023, 0, 23),
    (1023, 1, 24),
];
