//! Each call of the device within a commit, stopped and failed.

use super::steps::Row;
use super::volumes::{image_of_two, run_over};
use crate::filling::{MOST, NEW};
use std::alloc::Global;
use std::process::Abort;
use std::test::Fail;
use store_api::LeafAnswer;
use tee_base::Bytes;

/// How many calls of the board an opening makes whose slots are both open.
const CALLS_OF_OPENING: u64 = 5;

/// A commit from sequence 2 on: how many leaves it names, and how many calls of the board it makes.
#[derive(Clone, Copy)]
struct Commit {
    leaves: u16,
    /// The nodes that are read, three calls that shut a slot, the leaves and nodes that are written, and five calls more:
    /// the header is written and synced, the gate is opened and synced, and the counter is advanced.
    calls: u32,
}

/// One leaf: the root, its region, its band and its group are read, and written with it.
const ONE: Commit = Commit {
    leaves: 1,
    calls: 4 + 3 + 5 + 5,
};

/// Twenty leaves under twenty groups and all four bands.
const TWENTY: Commit = Commit {
    leaves: MOST,
    calls: 26 + 3 + 46 + 5,
};

/// By turns, a pick that keeps the durable bytes, one that keeps what was offered, and two that mix both with open bytes.
fn pick_of(call: u32) -> u64 {
    match call % 4 {
        0 => 0,
        1 => 0x5555_5555_5555_5555,
        2 => 0xE4E4_E4E4_E4E4_E4E5,
        _ => 0x1B1B_1B1B_1B1B_1B1B,
    }
}

/// A commit that is interrupted behind this row, and then the power.
fn interrupted(first: Row, leaves: u16, pick: u64) -> [Row; 7] {
    [
        first,
        Row::Replace(leaves, NEW, Err(LeafAnswer::Failed)),
        Row::Lost,
        Row::Replace(leaves, NEW, Err(LeafAnswer::Lost)),
        Row::Sequence(2),
        Row::AnyPower(pick),
        Row::GoOn(leaves),
    ]
}

/// Makes the calls in order, from sequence 2 on, over a board that fails the call of a commit that has this number.
fn run_failing(
    rt: &impl Abort,
    alloc: Global,
    image: &Bytes,
    call: u32,
    rows: &[Row],
) -> Result<(), Fail> {
    let failing = [CALLS_OF_OPENING.wrapping_add(u64::from(call))];
    run_over(rt, alloc, image, 2, &failing, rows)?;
    Ok(())
}

/// A commit, each of whose calls fails once, and no other call does.
fn fail_each(rt: &impl Abort, alloc: Global, commit: Commit) -> Result<(), Fail> {
    let image = image_of_two(rt, alloc)?;
    for call in 0..commit.calls {
        let rows = interrupted(Row::Sequence(2), commit.leaves, pick_of(call));
        run_failing(rt, alloc, &image, call, &rows)?;
    }
    let through = [Row::Replace(commit.leaves, NEW, Ok(3))];
    run_failing(rt, alloc, &image, commit.calls, &through)
}

/// A commit that is stopped once before each of its calls: no call passes from there on.
fn stop_each(rt: &impl Abort, alloc: Global, commit: Commit) -> Result<(), Fail> {
    let image = image_of_two(rt, alloc)?;
    for call in 0..commit.calls {
        let rows = interrupted(Row::Fuse(call), commit.leaves, pick_of(call));
        run_over(rt, alloc, &image, 2, &[], &rows)?;
    }
    let through = [
        Row::Fuse(commit.calls),
        Row::Replace(commit.leaves, NEW, Ok(3)),
    ];
    run_over(rt, alloc, &image, 2, &[], &through)?;
    Ok(())
}

#[test]
fn each_call_of_a_commit_of_one_leaf_fails(rt: HostRuntime) -> Result<(), Fail> {
    fail_each(&rt, rt.alloc(), ONE)
}

#[test]
fn each_call_of_a_commit_of_twenty_leaves_fails(rt: HostRuntime) -> Result<(), Fail> {
    fail_each(&rt, rt.alloc(), TWENTY)
}

#[test]
fn a_commit_of_one_leaf_is_stopped_at_each_call(rt: HostRuntime) -> Result<(), Fail> {
    stop_each(&rt, rt.alloc(), ONE)
}

#[test]
fn a_commit_of_twenty_leaves_is_stopped_at_each_call(rt: HostRuntime) -> Result<(), Fail> {
    stop_each(&rt, rt.alloc(), TWENTY)
}

/// A commit that fails, after which the volume is opened again at this sequence.
fn opened_again(sequence: u64) -> [Row; 5] {
    [
        Row::Replace(1, NEW, Err(LeafAnswer::Failed)),
        Row::Lost,
        Row::Reopen(sequence),
        Row::Sequence(sequence),
        Row::GoOn(1),
    ]
}

#[test]
fn a_volume_is_opened_again_after_a_failed_commit(rt: HostRuntime) -> Result<(), Fail> {
    let image = image_of_two(&rt, rt.alloc())?;
    // the write of the leaf fails, and the advance of the counter
    for (call, sequence) in [(4 + 3, 2), (ONE.calls - 1, 3)] {
        run_failing(&rt, rt.alloc(), &image, call, &opened_again(sequence))?;
    }
    Ok(())
}
