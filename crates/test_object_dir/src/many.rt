//! The table of changes among a thousand other objects, whose leaves are written as the format says.

ghost use Rattle.std.specs.Prelude.{◌<◌};
ghost use Rattle.store_api.specs.Limits.{IsChange};
ghost use Rattle.tee_base.specs.declared.limits.TheConstants.{MAX_HOSTS};

use super::changes::{STEPS, answer_alike};
use super::memory::{Memory, blank, write};
use super::same::are_same;
use super::steps::{Step, change_of};
use object_dir::KeptDir;
use std::alloc::Global;
use std::process::Abort;
use store_api::{AppStore, Change, Leaf, MapStore, Volume};
use tee_base::Bytes;
use tee_base::limits::BLOCK_BYTES;

const REGION: u8 = 2;

/// The leaves of the objects begin behind those of the map.
const FIRST: u16 = 4;

/// A thousand of them.
const END: u16 = FIRST + 1000;

/// The identifier of the object of a leaf. Identifiers don't ascend with the leaves.
fn id_of(leaf: u16) -> [u8; 2] {
    leaf.wrapping_mul(40_503).to_be_bytes()
}

/// A leaf of the map. An inode is `1 + 4 inode`, in four bytes.
fn map_leaf(number: u16) -> Leaf
    requires { number < 4 }
{
    let mut bytes = [0; BLOCK_BYTES];
    for place in 0..256_u16 {
        let leaf = 256 * number + place;
        if FIRST <= leaf && leaf < END {
            let entry = (1 + 4 * leaf).to_le_bytes();
            bytes[4 * place as usize] = entry[0];
            bytes[4 * place as usize + 1] = entry[1];
        }
    }
    Leaf { number, bytes }
}

/// The leaf of an object without content, whose kind is the leaf's number.
fn inode_leaf(leaf: u16) -> Leaf {
    let mut bytes = [0; BLOCK_BYTES];
    let (kind, id) = (leaf.to_le_bytes(), id_of(leaf));
    bytes[0] = kind[0];
    bytes[1] = kind[1];
    bytes[12] = 2;
    bytes[16] = id[0];
    bytes[17] = id[1];
    Leaf {
        number: leaf,
        bytes,
    }
}

/// Writes the objects.
fn fill(volume: &mut Memory) {
    for number in 0..FIRST {
        write(volume, REGION, map_leaf(number));
    }
    for leaf in FIRST..END {
        write(volume, REGION, inode_leaf(leaf));
    }
}

/// The change that makes the object of a leaf.
fn put(rt: &impl Abort, alloc: Global, leaf: u16) -> Change
    ensures { IsChange result }
{
    Change::Put {
        id: Bytes::from_slice(alloc, &id_of(leaf)).expect(rt, "an identifier"),
        kind: u32::from(leaf),
        usage: 0,
        secret: Bytes::empty(alloc),
        content: Bytes::empty(alloc),
        overwrite: false,
    }
}

/// Makes the objects in a store.
fn fill_store<S: AppStore>(rt: &impl Abort, alloc: Global, store: &mut S) {
    for leaf in FIRST..END {
        let change = put(rt, alloc, leaf);
        let made = store.apply(&change).is_ok();
        drop(change);
        assert!(rt; made);
    }
}

/// Two stores answer alike at each step, and have the same objects behind the last one.
fn go_alike<S: AppStore, T: AppStore>(
    rt: &impl Abort,
    alloc: Global,
    objects: &mut S,
    store: &mut T,
    steps: &[Step],
) {
    for step in steps {
        let change = change_of(rt, alloc, *step);
        let alike = answer_alike(objects, store, &change);
        drop(change);
        assert!(rt; alike);
    }
    assert!(rt; are_same(rt, alloc, objects, store, 1020));
}

/// The last rows of the table, which delete what the others made.
const REMOVALS: usize = 2;

/// Both go through the table alike, and have the same objects before the last rows and behind them.
fn go_through<S: AppStore, T: AppStore>(
    rt: &impl Abort,
    alloc: Global,
    objects: &mut S,
    store: &mut T,
) {
    let (changes, removals) = STEPS.split_at(STEPS.len() - REMOVALS);
    go_alike(rt, alloc, objects, store, changes);
    go_alike(rt, alloc, objects, store, removals);
}

/// The objects of the region, by a directory that is kept, go through the table as another store does.
fn go_over<V: Volume, T: AppStore>(rt: &impl Abort, alloc: Global, volume: &mut V, store: &mut T) {
    fill_store(rt, alloc, store);
    let mut objects = KeptDir::of(alloc, volume, REGION, None);
    go_through(rt, alloc, &mut objects, store);
}

#[test]
fn kept_among_a_thousand(rt: HostRuntime) {
    let mut volume = blank(&rt, rt.alloc());
    fill(&mut volume);
    let mut store = MapStore::new(rt.alloc(), &[]).expect(&rt, "a store");
    go_over(&rt, rt.alloc(), &mut volume, &mut store);
    drop(store);
    drop(volume);
}
