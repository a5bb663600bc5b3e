//! The plan of a change, without leaves that it would leave as they are.

ghost use Rattle.std.specs.Prelude.{◌≡◌, ◌<◌, false, IfOk, IfSome, IsTrue, bytes_eq};
ghost use Rattle.tee_base.specs.declared.limits.TheConstants.{LEAVES};
ghost use Rattle.store_api.specs.Ascending.{is_above_all};
ghost use Rattle.store_api.specs.Limits.{IsChange};
ghost use Rattle.region_plan.specs.Planning.{PlansChange, PlansFrom};
ghost use Rattle.region_plan.specs.Reading.{IfGarbled, IsUnread, ReadsOnly, leaves_of, refusal_of};
ghost use Rattle.object_dir.specs.Changing.{ChangesLeaves, are_there, planned_leaves};
ghost use Rattle.object_dir.specs.Kept.{IsKept};
ghost use Rattle.object_dir.specs.Regions.{in_use, number_of, region_keeper};

use crate::region::Region;
use region_plan::{Directory, LeafSource, plan};
use std::alloc::Global;
use store_api::{Change, Leaf, Leaves, StoreAnswer, Volume};
use tee_base::limits::BLOCK_BYTES;

/// Whether a leaf of a region has these bytes.
fn is_there<V: Volume>(region: &mut Region<'_, V>, leaf: &Leaf) -> Result<bool, StoreAnswer>
    requires { leaf.now.number < LEAVES }
    ensures told { IsTrue V.keeper.tells_reads → IfOk result
        (λ there. there ≡ bytes_eq (leaves_of (region_keeper V.keeper) number_of region.old
        leaf.now.number) leaf.now.bytes) }
    ensures unread { IsUnread (refusal_of result) }
    ensures garbled { IfGarbled (refusal_of result) (λ n. ⊥) }
    ensures reads { ReadsOnly (region_keeper V.keeper) number_of (refusal_of result) region.old
        region.new }
{
    let mut block = [0; BLOCK_BYTES];
    region.leaf(leaf.number, &mut block)?;
    Ok(block.as_slice() == leaf.bytes.as_slice())
}

/// Whether each of these leaves of a region has its bytes. It reads until one hasn't.
fn are_all_there<V: Volume>(
    region: &mut Region<'_, V>,
    leaves: &[Leaf],
) -> Result<bool, StoreAnswer>
    requires works { (V.keeper.condition region.old.volume.now).lost ≡ false }
    requires leaves { IsTrue (is_above_all leaves.now LEAVES) }
    ensures told { IsTrue V.keeper.tells_reads → IfOk result
        (λ there. there ≡ are_there (leaves_of (region_keeper V.keeper) number_of region.old)
        leaves.now) }
    ensures unread { IsUnread (refusal_of result) }
    ensures garbled { IfGarbled (refusal_of result) (λ n. ⊥) }
    ensures reads { ReadsOnly (region_keeper V.keeper) number_of (refusal_of result) region.old
        region.new }
{
    for leaf in leaves {
        if !is_there(region, leaf)? {
            return Ok(false);
        }
    }
    Ok(true)
}

/// The leaves that a change writes, in ascending order, unless each has its bytes already.
pub(crate) fn plan_change<V: Volume>(
    alloc: Global,
    region: &mut Region<'_, V>,
    change: &Change,
) -> Result<Option<Leaves>, StoreAnswer>
    requires { IsChange change.now }
    ensures plans { PlansChange (region_keeper V.keeper) number_of in_use change.now
        (planned_leaves result) region.old region.new }
    ensures writes { IfOk result (λ leaves. IfSome leaves
        (λ named. ChangesLeaves V.keeper region.old named)) }
{
    let leaves = plan(alloc, region, change)?;
    if are_all_there(region, leaves.as_slice())? {
        return Ok(None);
    }
    Ok(Some(leaves))
}

/// The same by a directory of the region.
pub(crate) fn plan_in<V: Volume>(
    alloc: Global,
    region: &mut Region<'_, V>,
    directory: &Directory,
    change: &Change,
) -> Result<Option<Leaves>, StoreAnswer>
    requires works { (V.keeper.condition region.old.volume.now).lost ≡ false }
    requires kept { IsKept directory.now }
    requires change { IsChange change.now }
    ensures plans { PlansFrom (region_keeper V.keeper) number_of directory.now change.now
        (planned_leaves result) region.old region.new }
    ensures writes { IfOk result (λ leaves. IfSome leaves
        (λ named. ChangesLeaves V.keeper region.old named)) }
{
    let leaves = directory.plan(alloc, region, change)?;
    if are_all_there(region, leaves.as_slice())? {
        return Ok(None);
    }
    Ok(Some(leaves))
}
