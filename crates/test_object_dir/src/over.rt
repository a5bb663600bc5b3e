//! What is known of a volume after its objects were handed to code that knows them as a store alone.

ghost use Rattle.std.specs.Prelude.{◌≡◌, ◌<◌};
ghost use Rattle.tee_base.specs.declared.limits.TheConstants.{MAX_HOSTS};
ghost use Rattle.store_api.specs.Keeping.{Applied, Applies};
ghost use Rattle.store_api.specs.Limits.{IsChange};
ghost use Rattle.store_api.specs.Stores.{change as changed_by};
ghost use Rattle.object_dir.specs.Regions.{KeepsStore, contents_in, store_in};

use object_dir::ObjectDir;
use std::alloc::Global;
use store_api::{AppStore, Change, StoreAnswer, Volume};

/// Makes a change in whatever store.
fn change_in<S: AppStore>(store: &mut S, change: &Change) -> Result<(), StoreAnswer>
    requires { IsChange change.now }
    ensures { Applies S.keeper change.now result store.old store.new }
{
    store.apply(change)
}

/// Makes a change of the objects of a region of a volume.
pub fn change_over<V: Volume>(
    alloc: Global,
    volume: &mut V,
    region: u8,
    change: &Change,
) -> Result<(), StoreAnswer>
    requires region { region < MAX_HOSTS }
    requires change { IsChange change.now }
    ensures applied { KeepsStore V.keeper region volume.old
        → Applied result (changed_by (store_in region (V.keeper.held volume.old)) change.now)
        (contents_in region (V.keeper.held volume.old))
        (contents_in region (V.keeper.held volume.new)) }
    ensures keeps { KeepsStore V.keeper region volume.old → KeepsStore V.keeper region volume.new }
    ensures foundation { (V.keeper.condition volume.new).foundation
        ≡ (V.keeper.condition volume.old).foundation }
{
    let mut objects = ObjectDir::of(alloc, volume, region);
    let answer = change_in(&mut objects, change);
    let _volume = objects.into_volume();
    answer
}
