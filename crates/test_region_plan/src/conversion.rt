//! A region of the first form that is checked, and becomes one of the second.

use super::memory::{Byte, Memory, OBJECTS, commit, set, with};
use super::reading::{IN_ORDER, TWO, go_through};
use region_plan::Form;
use std::alloc::Global;
use std::process::Abort;
use store_api::StoreAnswer;
use tee_base::NoMemory;
use v1_volume::{check, convert};

/// What is told of two objects in the first form, where these bytes are set besides.
fn refusal(alloc: Global, bytes: &[Byte]) -> Result<Option<StoreAnswer>, NoMemory> {
    let mut memory = with(alloc, OBJECTS)?;
    set(&mut memory, bytes);
    let refused = check(alloc, &mut memory).err();
    drop(memory);
    Ok(refused)
}

// One leaf breaks a rule; two do, and the lesser is told; a data leaf that no look-up of an object reads.
const BROKEN: &[(&[Byte], u16)] = &[
    (&[(0, 28, 3)], 7),
    (&[(0, 28, 3), (5, 12, 65)], 5),
    (&[(9, 0, 1), (3, 2, 1)], 3),
    (&[(2, 16, 0x61)], 5),
];

fn are_told(rt: &impl Abort, alloc: Global) -> Result<(), NoMemory> {
    for (place, row) in BROKEN.iter().enumerate() {
        assert!(rt;
            refusal(alloc, row.0)? == Some(StoreAnswer::Garbled(row.1)),
            "row {place}"
        );
    }
    Ok(())
}

#[test]
fn least_broken_leaf(rt: HostRuntime) -> Result<(), NoMemory> {
    are_told(&rt, rt.alloc())
}

/// Leaves of the second form, as those of the first one are converted.
fn converted(alloc: Global) -> Result<Memory, StoreAnswer> {
    let mut old = with(alloc, OBJECTS)?;
    let region = check(alloc, &mut old)?;
    let leaves = convert(alloc, &region)?;
    let mut new = with(alloc, &[])?;
    commit(&mut new, &leaves);
    Ok(new)
}

/// The same is told of both objects then.
#[test]
fn two_objects_converted(rt: HostRuntime) -> Result<(), NoMemory> {
    match converted(rt.alloc()) {
        Ok(mut memory) => {
            go_through(&rt, rt.alloc(), &mut memory, Form::Two, TWO);
            go_through(&rt, rt.alloc(), &mut memory, Form::Two, IN_ORDER);
            drop(memory);
        }
        Err(_) => assert!(rt; false),
    }
    Ok(())
}
