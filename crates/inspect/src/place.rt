//! What a place of a volume is.

ghost use Rattle.inspect.specs.Spots.{IsSpot};

use tree_paths::places::{FIRST_LEAF, REGION_LEAVES};

/// What a place is.
#[derive(Clone, Copy, Debug, PartialEq, Eq)]
pub enum Spot {
    /// A node of the tree: the root, or one above leaves.
    Node,
    /// A leaf of a region.
    Leaf { region: u64, leaf: u64 },
}

/// What a place is.
pub fn spot_of(place: u64) -> Spot
    ensures { IsSpot place result }
{
    if place < FIRST_LEAF {
        return Spot::Node;
    }
    let behind = place - FIRST_LEAF;
    Spot::Leaf {
        region: behind / u64::from(REGION_LEAVES),
        leaf: behind % u64::from(REGION_LEAVES),
    }
}
