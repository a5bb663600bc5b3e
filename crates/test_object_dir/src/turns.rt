//! The directory of a region, which goes from turn to turn.

use super::changes::{STEPS, answer_alike};
use super::losses::{REGION, SECOND, with_one};
use super::memory::{Ending, Memory, blank};
use super::same::are_same;
use super::steps::{Step, change_of};
use object_dir::{Kept, KeptDir};
use std::alloc::Global;
use std::process::Abort;
use store_api::{AppStore, MapStore, StoreAnswer, Volume};

/// A turn with a change: whether the region and another store answer alike, and what is kept.
fn make_change<V: Volume, S: AppStore>(
    rt: &impl Abort,
    alloc: Global,
    volume: &mut V,
    kept: Option<Kept>,
    store: &mut S,
    step: Step,
) -> (bool, Option<Kept>) {
    let change = change_of(rt, alloc, step);
    let mut objects = KeptDir::of(alloc, volume, REGION, kept);
    let alike = answer_alike(&mut objects, store, &change);
    drop(change);
    let mut changed = None;
    let _volume = objects.into_volume(&mut changed);
    (alike, changed)
}

/// A turn with look-ups: whether the region and another store have the same objects, and what is kept.
fn look_at_all<V: Volume, S: AppStore>(
    rt: &impl Abort,
    alloc: Global,
    volume: &mut V,
    kept: Option<Kept>,
    store: &mut S,
) -> (bool, Option<Kept>) {
    let mut objects = KeptDir::of(alloc, volume, REGION, kept);
    let same = are_same(rt, alloc, &mut objects, store, 9);
    let mut left = None;
    let _volume = objects.into_volume(&mut left);
    (same, left)
}

/// A region goes through the table as another store does, and keeps its directory over all turns. What is kept is taken up
/// right behind each change, before a look-up could read it anew.
fn go_along<V: Volume, S: AppStore>(rt: &impl Abort, alloc: Global, volume: &mut V, store: &mut S) {
    let mut kept = None;
    for (place, step) in STEPS.iter().enumerate() {
        let (alike, changed) = make_change(rt, alloc, volume, kept, store, *step);
        let is_kept = changed.is_some();
        let (same, left) = look_at_all(rt, alloc, volume, changed, store);
        assert!(rt; alike && is_kept && same && left.is_some(), "step {place}");
        kept = left;
    }
    drop(kept);
}

/// What is kept goes along with each change: behind it the store answers and has the objects of a store in memory.
#[test]
fn kept_over_turns(rt: HostRuntime) {
    let mut volume = blank(&rt, rt.alloc());
    let mut store = MapStore::new(rt.alloc(), &[]).expect(&rt, "a store");
    go_along(&rt, rt.alloc(), &mut volume, &mut store);
    drop(store);
    drop(volume);
}

/// What is kept behind a look-up.
fn look<V: Volume>(rt: &impl Abort, alloc: Global, volume: &mut V) -> Option<Kept> {
    let mut objects = KeptDir::of(alloc, volume, REGION, None);
    let found = objects.find(b"a").is_ok();
    let mut kept = None;
    let _volume = objects.into_volume(&mut kept);
    assert!(rt; found && kept.is_some());
    kept
}

/// Whether a change fails and drops what was kept, and all is lost then.
fn is_dropped<V: Volume>(
    rt: &impl Abort,
    alloc: Global,
    volume: &mut V,
    kept: Option<Kept>,
) -> bool {
    let second = change_of(rt, alloc, SECOND);
    let mut objects = KeptDir::of(alloc, volume, REGION, kept);
    let failed = objects.apply(&second) == Err(StoreAnswer::Failed);
    drop(second);
    let lost = objects.find(b"a") == Err(StoreAnswer::Lost);
    let mut left = None;
    let _volume = objects.into_volume(&mut left);
    failed && lost && left.is_none()
}

/// Whether so it is where the commit ends so.
fn drops(rt: &impl Abort, alloc: Global, ending: Ending) -> bool {
    let mut volume = with_one(rt, alloc);
    let kept = look(rt, alloc, &mut volume);
    volume.ending = ending;
    let dropped = is_dropped(rt, alloc, &mut volume, kept);
    drop(volume);
    dropped
}

/// Whether a volume that was lost meanwhile is told first, and what was kept is dropped.
fn is_lost_first(rt: &impl Abort, alloc: Global, volume: &mut Memory) -> bool {
    let kept = look(rt, alloc, volume);
    volume.lost = true;
    let mut objects = KeptDir::of(alloc, volume, REGION, kept);
    let lost = objects.find(b"z") == Err(StoreAnswer::Lost);
    let mut left = None;
    let _volume = objects.into_volume(&mut left);
    lost && left.is_none()
}

/// Nothing is kept where a commit failed, nor over a loss.
#[test]
fn nothing_kept(rt: HostRuntime) {
    assert!(&rt; drops(&rt, rt.alloc(), Ending::FailsBefore));
    assert!(&rt; drops(&rt, rt.alloc(), Ending::FailsBehind));
    let mut volume = with_one(&rt, rt.alloc());
    let lost = is_lost_first(&rt, rt.alloc(), &mut volume);
    drop(volume);
    assert!(&rt; lost);
}
