//! The nodes of a tree of which nothing was written yet, with the leaves that it gets.
ghost use Rattle.std.specs.Prelude.{◌≡◌, ◌≢◌, ◌<◌, ℕ, true, Some, None, IsTrue, IsSome, IfOk, OnOk, All, length, replicate};
ghost use Rattle.tee_base.specs.declared.limits.TheConstants.{BLOCK_BYTES, MAX_HOSTS as REGIONS};
ghost use Rattle.store_api.specs.Ascending.{is_ascending};
ghost use Rattle.tree_commits.specs.Gather.{AreGathered, leaf_among};
ghost use Rattle.tree_commits.specs.Touched.{AreOrdered, fresh_of};
ghost use Rattle.tree_paths.specs.Shape.{shape};
ghost use Rattle.v1_volume.specs.Old.{AreNumbered, named_of};
ghost use Rattle.v1_volume.specs.Planting.{AreBlank};

use std::alloc::Global;
use store_api::{Leaf, Leaves};
use tee_base::NoMemory;
use tee_base::limits::MAX_HOSTS;
use tree_commits::{Node, Touched};
use tree_paths::places::{DEPTH, PLACES, REGION_LEAVES, leaf_place, parent};

/// The copy of a place that counts as the one in use, so that the first one is written: neither was written before.
const SECOND: u64 = 1;

/// A node without entries.
fn blank_node(place: u64) -> Node
    ensures place { result.place ≡ place }
    ensures zeros { result.bytes ≡ replicate BLOCK_BYTES 0 }
{
    Node {
        place,
        copy: SECOND,
        bytes: [0; 1024],
    }
}

/// Sees that the node of a place above the leaves is among the nodes, and all nodes above it. Those that come in have no
/// entries.
fn hold(touched: &mut Touched, level: usize, place: u64) -> Result<(), NoMemory>
    requires place { place < PLACES }
    requires level { shape.level place ≡ level }
    requires above { level < DEPTH }
    requires gathered { AreGathered shape touched.old }
    requires blank { AreBlank touched.old }
    ensures gathered { OnOk result (AreGathered shape touched.new) }
    ensures blank { OnOk result (AreBlank touched.new) }
    ensures held { OnOk result (IsSome (fresh_of touched.new place)) }
    // nothing changes among the places that lie deeper
    ensures deeper { OnOk result ((p : ℕ) → level < shape.level p
        → fresh_of touched.new p ≡ fresh_of touched.old p) }
{
    if touched.holds(place) {
        return Ok(());
    }
    if level == 0 {
        return touched.push(blank_node(place));
    }
    hold(touched, level - 1, parent(place))?;
    touched.push(blank_node(place))
}

/// Takes in a leaf, and before it the nodes above it.
fn plant(touched: &mut Touched, region: u8, leaf: &Leaf) -> Result<(), NoMemory>
    requires region { region < REGIONS }
    requires number { leaf.now.number < REGION_LEAVES }
    requires gathered { AreGathered shape touched.old }
    requires blank { AreBlank touched.old }
    requires new { fresh_of touched.old (shape.leaf_place region leaf.now.number) ≡ None }
    ensures ordered { OnOk result (AreOrdered shape touched.new) }
    ensures blank { OnOk result (AreBlank touched.new) }
    ensures here { OnOk result
        (fresh_of touched.new (shape.leaf_place region leaf.now.number) ≡ Some leaf.now.bytes) }
    ensures others { OnOk result ((p : ℕ) → shape.level p ≡ DEPTH
        → p ≢ shape.leaf_place region leaf.now.number
        → fresh_of touched.new p ≡ fresh_of touched.old p) }
{
    let place = leaf_place(region, leaf.number);
    let above = parent(place);
    hold(touched, DEPTH - 1, above)?;
    let bytes = leaf.bytes;
    touched.push(Node {
        place,
        copy: SECOND,
        bytes,
    })
}

/// Takes in leaves of a region.
fn plant_region(touched: &mut Touched, region: u8, leaves: &[Leaf]) -> Result<(), NoMemory>
    requires region { region < REGIONS }
    requires ascending { is_ascending leaves.now ≡ true }
    requires numbers { All (λ leaf. leaf.number < REGION_LEAVES) leaves.now }
    requires ordered { AreOrdered shape touched.old }
    requires blank { AreBlank touched.old }
    requires new { (l : ℕ) → l < REGION_LEAVES
        → fresh_of touched.old (shape.leaf_place region l) ≡ None }
    ensures ordered { OnOk result (AreOrdered shape touched.new) }
    ensures blank { OnOk result (AreBlank touched.new) }
    ensures here { OnOk result ((l : ℕ) → l < REGION_LEAVES
        → fresh_of touched.new (shape.leaf_place region l) ≡ leaf_among leaves.now l) }
    ensures elsewhere { OnOk result ((r l : ℕ) → r ≢ region → l < REGION_LEAVES
        → let place = shape.leaf_place r l in
        fresh_of touched.new place ≡ fresh_of touched.old place) }
{
    for leaf in leaves {
        plant(touched, region, leaf)?;
    }
    Ok(())
}

/// The nodes that leaves of all regions need, where nothing was written yet: the leaves, and the nodes above them, which
/// have no entries.
pub fn plant_all(alloc: Global, regions: &Vec<Leaves>) -> Result<Touched, NoMemory>
    requires whole { length regions.now.items ≡ REGIONS }
    requires numbered { AreNumbered regions.now.items }
    ensures ordered { IfOk result (λ t. AreOrdered shape t) }
    ensures blank { IfOk result (λ t. AreBlank t) }
    ensures leaves { IfOk result (λ t. (r l : ℕ) → r < REGIONS → l < REGION_LEAVES
        → fresh_of t (shape.leaf_place r l) ≡ leaf_among (named_of regions.now.items r) l) }
{
    let mut touched = Touched::new(alloc);
    hold(&mut touched, 0, 0)?;
    for region in 0..MAX_HOSTS {
        plant_region(&mut touched, region as u8, regions[region].as_slice())?;
    }
    Ok(touched)
}
