//! One table of changes, over the objects in a volume and over a store in memory.

ghost use Rattle.std.specs.Prelude.{◌<◌};
ghost use Rattle.store_api.specs.Limits.{IsChange};
ghost use Rattle.tee_base.specs.declared.limits.TheConstants.{MAX_HOSTS};

use super::memory::blank;
use super::over::change_over;
use super::same::are_same;
use super::steps::{Step, change_of};
use object_dir::ObjectDir;
use std::alloc::Global;
use std::process::Abort;
use store_api::{AppStore, Change, MapStore, StoreAnswer, Volume};

pub const STEPS: &[Step] = &[
    Step::Delete(b'a'),
    Step::New(b'a', 2500),
    Step::New(b'b', 0),
    Step::New(b'a', 1),
    Step::Write(b'a', 1020, 8),
    Step::Write(b'a', 5000, 3),
    Step::Write(b'b', 9000, 0),
    Step::Overwrite(b'a', 1025),
    Step::Rename(b'a', b'b'),
    Step::Rename(b'a', b'c'),
    Step::Truncate(b'c', 300_000),
    Step::Truncate(b'c', 1030),
    Step::Truncate(b'c', 1030),
    Step::Delete(b'b'),
    Step::Delete(b'c'),
];

/// Makes a change in a store.
pub fn make_in<S: AppStore>(rt: &impl Abort, alloc: Global, store: &mut S, step: Step) {
    let change = change_of(rt, alloc, step);
    let made = store.apply(&change).is_ok();
    drop(change);
    assert!(rt; made);
}

/// Makes a change of the objects of a region of a volume, and gives the answer.
pub fn make<V: Volume>(
    rt: &impl Abort,
    alloc: Global,
    volume: &mut V,
    region: u8,
    step: Step,
) -> Result<(), StoreAnswer>
    requires { region < MAX_HOSTS }
{
    let change = change_of(rt, alloc, step);
    let answer = change_over(alloc, volume, region, &change);
    drop(change);
    answer
}

/// Whether a region of a volume and another store have the same objects.
pub fn has_same<V: Volume, S: AppStore>(
    rt: &impl Abort,
    alloc: Global,
    volume: &mut V,
    region: u8,
    store: &mut S,
) -> bool
    requires { region < MAX_HOSTS }
{
    let mut objects = ObjectDir::of(alloc, volume, region);
    are_same(rt, alloc, &mut objects, store, 9)
}

/// Makes a change in two stores, and says whether they answer alike.
pub fn answer_alike<S: AppStore, T: AppStore>(one: &mut S, other: &mut T, change: &Change) -> bool
    requires { IsChange change.now }
{
    one.apply(change) == other.apply(change)
}

/// Makes a change in a region of a volume and in another store, and says whether they answer alike and have the same
/// objects then.
fn is_alike<V: Volume, S: AppStore>(
    rt: &impl Abort,
    alloc: Global,
    volume: &mut V,
    region: u8,
    store: &mut S,
    step: Step,
) -> bool
    requires { region < MAX_HOSTS }
{
    let change = change_of(rt, alloc, step);
    let mut objects = ObjectDir::of(alloc, volume, region);
    let alike = answer_alike(&mut objects, store, &change);
    drop(change);
    alike && are_same(rt, alloc, &mut objects, store, 9)
}

/// A region goes through all rows as another store does.
fn check_steps<V: Volume, S: AppStore>(
    rt: &impl Abort,
    alloc: Global,
    volume: &mut V,
    region: u8,
    store: &mut S,
)
    requires { region < MAX_HOSTS }
{
    for (place, step) in STEPS.iter().enumerate() {
        let alike = is_alike(rt, alloc, volume, region, store, *step);
        assert!(rt; alike, "step {place}");
    }
}

/// Each change answers alike and leaves the same objects.
#[test]
fn as_in_memory(rt: HostRuntime) {
    let mut volume = blank(&rt, rt.alloc());
    let mut store = MapStore::new(rt.alloc(), &[]).expect(&rt, "a store");
    check_steps(&rt, rt.alloc(), &mut volume, 3, &mut store);
    drop(store);
    drop(volume);
}
