//! A leaf whose tag differs, and what is told of it.

use super::losses::{REGION, SECOND, with_one};
use super::steps::change_of;
use object_dir::ObjectDir;
use std::alloc::Global;
use std::process::Abort;
use store_api::{AppStore, StoreAnswer, Volume};

/// Whether an answer tells of damage.
fn is_corrupt<A>(answer: &Result<A, StoreAnswer>) -> bool {
    matches!(answer, Err(StoreAnswer::Corrupt(_)))
}

/// Whether a look at the object and a change of it are both told as damage.
fn is_refused<V: Volume>(rt: &impl Abort, alloc: Global, volume: &mut V) -> bool {
    let change = change_of(rt, alloc, SECOND);
    let mut objects = ObjectDir::of(alloc, volume, REGION);
    let changed = objects.apply(&change);
    drop(change);
    is_corrupt(&changed) && is_corrupt(&objects.find(b"a"))
}

/// Whether so it is where this leaf is damaged, and nothing is committed.
fn refuses(rt: &impl Abort, alloc: Global, leaf: u16) -> bool {
    let mut volume = with_one(rt, alloc);
    volume.damaged = Some(leaf);
    let refused = is_refused(rt, alloc, &mut volume);
    let commits = volume.sequence();
    drop(volume);
    refused && commits == 1
}

/// The map and the object's inode are needed for every answer. Its data, in the leaves 5 and 6, is needed for neither call.
#[test]
fn damaged_leaves(rt: HostRuntime) {
    for leaf in 0..5 {
        assert!(&rt; refuses(&rt, rt.alloc(), leaf), "leaf {leaf}");
    }
    assert!(&rt; !refuses(&rt, rt.alloc(), 5));
}
