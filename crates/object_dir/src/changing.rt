//! A change of the objects of a region: planned, and committed at once.

ghost use Rattle.store_api.specs.Limits.{IsChange};
ghost use Rattle.object_dir.specs.Changing.{ChangesRegion};

use crate::planned::plan_change;
use crate::region::Region;
use std::alloc::Global;
use store_api::{Change, StoreAnswer, Volume};

/// Makes a change, whole or not at all. Where no leaf changes, nothing is committed.
pub(crate) fn change_region<V: Volume>(
    alloc: Global,
    region: &mut Region<'_, V>,
    change: &Change,
) -> Result<(), StoreAnswer>
    requires { IsChange change.now }
    ensures { ChangesRegion V.keeper change.now result region.old region.new }
{
    match plan_change(alloc, region, change)? {
        Some(leaves) => region.commit(&leaves),
        None => Ok(()),
    }
}
