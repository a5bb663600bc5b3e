//! Where the places of the first version stand, by its table.

ghost use Rattle.std.specs.Prelude.{◌≡◌, ◌<◌, ◌+◌, ◌*◌};
ghost use Rattle.test_old_image.specs.declared.layout.TheConstants.{FAN, FIRST_BLOCK, FIRST_GROUP, FIRST_LEAF, FIRST_REGION, PLACES, REGION_LEAVES};

/// How many blocks an image has.
pub const BLOCKS: u64 = 8_742;

/// How many regions there are, groups of a region, and leaves of a group.
pub const FAN: u64 = 16;

/// How many leaves a region has.
pub const REGION_LEAVES: u64 = 256;

/// How many places there are.
pub const PLACES: u64 = 4_369;

/// The place of the root.
pub const ROOT: u64 = 0;

/// The place of the first region's node, of its first group and of its first leaf.
const FIRST_REGION: u64 = 1;

const FIRST_GROUP: u64 = 17;

const FIRST_LEAF: u64 = 273;

/// The block of copy 0 of the root.
const FIRST_BLOCK: u64 = 4;

/// The place of the node of a region.
pub fn region_place(region: u64) -> u64
    requires { region < FAN }
    ensures place { result ≡ FIRST_REGION + region }
    ensures below { result < PLACES }
{
    FIRST_REGION + region
}

/// The place of the node of a group of a region.
pub fn group_place(region: u64, group: u64) -> u64
    requires region { region < FAN }
    requires group { group < FAN }
    ensures place { result ≡ FIRST_GROUP + FAN * region + group }
    ensures below { result < PLACES }
{
    FIRST_GROUP + FAN * region + group
}

/// The place of a leaf of a region.
pub fn leaf_place(region: u64, leaf: u64) -> u64
    requires region { region < FAN }
    requires leaf { leaf < REGION_LEAVES }
    ensures place { result ≡ FIRST_LEAF + REGION_LEAVES * region + leaf }
    ensures below { result < PLACES }
{
    let first = FIRST_LEAF + REGION_LEAVES * region;
    first + leaf
}

/// The block of a copy of a place.
pub fn block_of(place: u64, copy: u64) -> u64
    requires place { place < PLACES }
    requires copy { copy < 2 }
    ensures { result ≡ FIRST_BLOCK + 2 * place + copy }
{
    let first = FIRST_BLOCK + 2 * place;
    first + copy
}

/// The copy that an image has a place in: both numbers come up.
pub fn copy_in(place: u64) -> u64
    ensures { result < 2 }
{
    place % 2
}
