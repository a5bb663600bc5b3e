//! A commit that fails, and what is there when the volume works again.

use super::changes::{has_same, make, make_in};
use super::memory::{Ending, Memory, blank};
use super::steps::{Step, change_of};
use object_dir::ObjectDir;
use std::alloc::Global;
use std::process::Abort;
use store_api::{AppStore, MapStore, StoreAnswer, Volume};

pub const REGION: u8 = 15;

pub const FIRST: Step = Step::New(b'a', 1500);

pub const SECOND: Step = Step::Overwrite(b'a', 10);

/// A volume with one object.
pub fn with_one(rt: &impl Abort, alloc: Global) -> Memory {
    let mut volume = blank(rt, alloc);
    let made = make(rt, alloc, &mut volume, REGION, FIRST) == Ok(());
    assert!(rt; made);
    volume
}

/// Whether the second change fails, and all is lost then.
fn is_lost<V: Volume>(rt: &impl Abort, alloc: Global, volume: &mut V) -> bool {
    let second = change_of(rt, alloc, SECOND);
    let mut objects = ObjectDir::of(alloc, volume, REGION);
    let failed = objects.apply(&second) == Err(StoreAnswer::Failed);
    drop(second);
    failed && objects.find(b"a") == Err(StoreAnswer::Lost)
}

/// Whether a volume has the objects behind the first change, or behind both.
fn has_objects<V: Volume>(rt: &impl Abort, alloc: Global, volume: &mut V, both: bool) -> bool {
    let mut store = MapStore::new(alloc, &[]).expect(rt, "a store");
    make_in(rt, alloc, &mut store, FIRST);
    if both {
        make_in(rt, alloc, &mut store, SECOND);
    }
    let same = has_same(rt, alloc, volume, REGION, &mut store);
    drop(store);
    same
}

/// Whether an overwrite whose commit ends so fails, and is there behind it, or isn't.
fn fails(rt: &impl Abort, alloc: Global, ending: Ending, is_there: bool) -> bool {
    let mut volume = with_one(rt, alloc);
    volume.ending = ending;
    let lost = is_lost(rt, alloc, &mut volume);
    volume.lost = false;
    let has = has_objects(rt, alloc, &mut volume, is_there);
    drop(volume);
    lost && has
}

#[test]
fn failed_commits(rt: HostRuntime) {
    assert!(&rt; fails(&rt, rt.alloc(), Ending::FailsBefore, false));
    assert!(&rt; fails(&rt, rt.alloc(), Ending::FailsBehind, true));
}

/// How many commits there were behind a change of a volume with one object.
fn commits(rt: &impl Abort, alloc: Global, step: Step) -> u64 {
    let mut volume = with_one(rt, alloc);
    let made = make(rt, alloc, &mut volume, REGION, step) == Ok(());
    let commits = volume.sequence();
    drop(volume);
    assert!(rt; made);
    commits
}

/// Changes that leave all leaves as they were.
const LEAVING: &[Step] = &[
    Step::Truncate(b'a', 1500),
    Step::Write(b'a', 9, 0),
    Step::Overwrite(b'a', 1500),
];

/// A change that leaves all leaves as they were commits nothing.
#[test]
fn no_commit(rt: HostRuntime) {
    for step in LEAVING {
        assert!(&rt; commits(&rt, rt.alloc(), *step) == 1);
    }
    assert!(&rt; commits(&rt, rt.alloc(), Step::Write(b'a', 9, 1)) == 2);
}
