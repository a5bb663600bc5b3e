//! A directory that is kept over changes, beside one that is read after each.

ghost use Rattle.std.specs.Prelude.{◌≡◌, IfOk};
ghost use Rattle.store_api.specs.Limits.{IsChange};
ghost use Rattle.region_plan.specs.declared.form.Form.TheVariants.{Two};
ghost use Rattle.region_plan.specs.Directories.{IsBounded};

use super::memory::{Memory, commit, with};
use super::steps::{Step, change_of, is_same_listed};
use region_plan::{Directory, Form};
use std::alloc::Global;
use store_api::{Change, StoreAnswer};
use tee_base::{Bytes, NoMemory};

/// Each kind of change, and one that is refused.
const STEPS: &[Step] = &[
    Step::New(b'b', 2000),
    Step::New(b'a', 0),
    Step::New(b'C', 1024),
    Step::Write(b'a', 1020, 8),
    Step::Overwrite(b'b', 10),
    Step::Rename(b'a', b'z'),
    Step::Rename(b'b', b'z'),
    Step::Truncate(b'z', 5000),
    Step::Delete(b'C'),
    Step::New(b'a', 1),
];

/// The directory of a region, as it is read.
#[tactic(auto, using(region_plan::proofs::FormLemmas::most_leaves))]
fn directory_of(alloc: Global, memory: &mut Memory) -> Result<Directory, StoreAnswer>
    ensures form { IfOk result (λ directory. directory.form ≡ Two) }
    ensures bounded { IfOk result (λ directory. IsBounded directory) }
{
    Directory::read(alloc, memory, Form::Two)
}

/// Makes a change by a directory, and gives the one behind it. A change that is refused leaves it.
#[tactic(auto, using(region_plan::proofs::FormLemmas::most_leaves))]
fn change_by(
    alloc: Global,
    memory: &mut Memory,
    directory: Directory,
    change: &Change,
) -> Result<Directory, StoreAnswer>
    requires form { directory.form ≡ Two }
    requires bounded { IsBounded directory }
    requires change { IsChange change.now }
    ensures form { IfOk result (λ directory. directory.form ≡ Two) }
    ensures bounded { IfOk result (λ directory. IsBounded directory) }
{
    if memory.lost {
        return Err(StoreAnswer::Lost);
    }
    match directory.plan(alloc, memory, change) {
        Ok(leaves) => {
            commit(memory, &leaves);
            directory.after(alloc, &leaves)
        }
        Err(StoreAnswer::Exists) => Ok(directory),
        Err(refusal) => Err(refusal),
    }
}

/// Whether two directories list the same objects, all of which this many take.
fn list_alike(
    alloc: Global,
    one: &Directory,
    other: &Directory,
    most: usize,
) -> Result<bool, NoMemory>
    requires one { IsBounded one.now }
    requires other { IsBounded other.now }
{
    let mut last = Bytes::empty(alloc);
    for _ in 0..most {
        let listed = one.next_after(alloc, Some(last.as_slice()));
        if !is_same_listed(&listed, &other.next_after(alloc, Some(last.as_slice()))) {
            return Ok(false);
        }
        match listed {
            Ok(listed) => last = listed.id,
            Err(answer) => return Ok(matches!(answer, StoreAnswer::NotFound)),
        }
    }
    Ok(false)
}

/// The first step behind which the kept directory isn't the one that is read, if there is one.
fn first_unlike(alloc: Global, memory: &mut Memory) -> Result<Option<usize>, StoreAnswer> {
    let mut kept = directory_of(alloc, memory)?;
    for (place, step) in STEPS.iter().enumerate() {
        let change = change_of(alloc, *step)?;
        kept = change_by(alloc, memory, kept, &change)?;
        let read = directory_of(alloc, memory)?;
        if !list_alike(alloc, &kept, &read, 9)? {
            return Ok(Some(place));
        }
    }
    Ok(None)
}

/// A kept directory lists what one lists that is read after each change.
#[test]
fn kept_as_read(rt: HostRuntime) -> Result<(), NoMemory> {
    let mut memory = with(rt.alloc(), &[])?;
    let first = first_unlike(rt.alloc(), &mut memory);
    drop(memory);
    assert!(rt; first == Ok(None));
    Ok(())
}
