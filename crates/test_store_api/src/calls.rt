//! Rows of calls on a store in memory, and what has to come of each.
ghost use Rattle.std.specs.Prelude.{◌≤◌, IfOk, length};
ghost use Rattle.store_api.specs.Limits.{IsIdentifier, IsChange};

use crate::identifiers::is_identifier;
use std::alloc::Global;
use std::process::Abort;
use store_api::{AppStore, Change, Facts, MapStore, StoreAnswer};
use tee_base::{Bytes, NoMemory};

/// Bytes of a table.
type Text = &'static [u8];

/// A change in words that a table can hold. All content is sevens.
#[derive(Clone, Copy)]
enum Step {
    New(Text, u32),
    Overwrite(Text, u32),
    Delete(Text),
    Rename(Text, Text),
    Write(Text, u16, Text),
    Truncate(Text, u32),
}

/// A call of a store, and what has to come of it.
#[derive(Clone, Copy)]
enum Row {
    /// The change is answered so.
    Change(Step, Result<(), StoreAnswer>),
    /// The facts of the object are these.
    Facts(Text, Result<Facts, StoreAnswer>),
    /// The object has this secret.
    Secret(Text, Text),
    /// From this place on the object's content begins so; 7 bytes are asked for.
    Content(Text, u32, Text),
    /// Behind this identifier comes that one, whose content has so many bytes.
    Next(Option<Text>, Text, u32),
    /// Behind this identifier comes none.
    Last(Option<Text>),
    /// So many calls failed.
    Faults(u64),
}

fn identifier(rt: &impl Abort, alloc: Global, bytes: &[u8]) -> Result<Bytes, NoMemory>
    ensures { IfOk result (λ id. IsIdentifier id) }
{
    assert!(rt; is_identifier(bytes));
    Bytes::from_slice(alloc, bytes)
}

fn sevens(alloc: Global, count: u32) -> Result<Bytes, NoMemory>
    ensures { IfOk result (λ bytes. length bytes ≤ 524288) }
{
    let mut bytes = Vec::new(alloc);
    bytes.resize(count.min(524_288) as usize, 7u8)?;
    Ok(Bytes::from_vec(bytes))
}

fn put(
    rt: &impl Abort,
    alloc: Global,
    id: &[u8],
    count: u32,
    overwrite: bool,
) -> Result<Change, NoMemory>
    ensures { IfOk result (λ change. IsChange change) }
{
    Ok(Change::Put {
        id: identifier(rt, alloc, id)?,
        kind: count,
        usage: 9,
        secret: identifier(rt, alloc, id)?,
        content: sevens(alloc, count)?,
        overwrite,
    })
}

fn change_of(rt: &impl Abort, alloc: Global, step: &Step) -> Result<Change, NoMemory>
    ensures { IfOk result (λ change. IsChange change) }
{
    match *step {
        Step::New(id, count) => put(rt, alloc, id, count, false),
        Step::Overwrite(id, count) => put(rt, alloc, id, count, true),
        Step::Delete(id) => Ok(Change::Delete {
            id: identifier(rt, alloc, id)?,
        }),
        Step::Rename(id, to) => Ok(Change::Rename {
            id: identifier(rt, alloc, id)?,
            to: identifier(rt, alloc, to)?,
        }),
        Step::Write(id, at, bytes) => Ok(Change::Write {
            id: identifier(rt, alloc, id)?,
            at: u32::from(at),
            bytes: identifier(rt, alloc, bytes)?,
        }),
        Step::Truncate(id, length) => Ok(Change::Truncate {
            id: identifier(rt, alloc, id)?,
            length,
        }),
    }
}

/// Makes a change, and compares the answer.
fn is_answered(
    rt: &impl Abort,
    alloc: Global,
    store: &mut MapStore,
    step: &Step,
    want: &Result<(), StoreAnswer>,
) -> Result<bool, NoMemory> {
    let change = change_of(rt, alloc, step)?;
    let answer = store.apply(&change);
    drop(change);
    Ok(answer == *want)
}

/// Compares the facts of an object.
fn has_facts(store: &mut MapStore, id: &[u8], want: &Result<Facts, StoreAnswer>) -> bool {
    is_identifier(id) && store.find(id) == *want
}

/// Compares the secret of an object.
fn has_secret(store: &mut MapStore, id: &[u8], want: &[u8]) -> bool {
    if !is_identifier(id) {
        return false;
    }
    match store.secret(id) {
        Ok(secret) => secret.as_slice() == want,
        Err(_) => false,
    }
}

/// Compares a part of some content.
fn has_content(store: &mut MapStore, id: &[u8], from: u32, want: &[u8]) -> bool {
    if !is_identifier(id) {
        return false;
    }
    match store.read(id, from, 7) {
        Ok(content) => content.as_slice() == want,
        Err(_) => false,
    }
}

/// Compares the identifier that comes next, and the length of its content.
fn is_next(store: &mut MapStore, last: Option<&[u8]>, want: &[u8], length: u32) -> bool {
    match store.next_after(last) {
        Ok(next) => next.id.as_slice() == want && next.facts.length == length,
        Err(_) => false,
    }
}

/// Makes the call of a row, and says whether that came of it which has to.
fn is_met(
    rt: &impl Abort,
    alloc: Global,
    store: &mut MapStore,
    row: &Row,
) -> Result<bool, NoMemory> {
    Ok(match row {
        Row::Change(step, want) => is_answered(rt, alloc, store, step, want)?,
        Row::Facts(id, want) => has_facts(store, id, want),
        Row::Secret(id, want) => has_secret(store, id, want),
        Row::Content(id, from, want) => has_content(store, id, *from, want),
        Row::Next(last, want, length) => is_next(store, *last, want, *length),
        Row::Last(last) => store.next_after(*last).is_err(),
        Row::Faults(count) => store.faults() == *count,
    })
}

/// Makes the calls in order.
fn go_through(
    rt: &impl Abort,
    alloc: Global,
    store: &mut MapStore,
    rows: &[Row],
) -> Result<(), NoMemory> {
    for (place, row) in rows.iter().enumerate() {
        assert!(rt; is_met(rt, alloc, store, row)?, "row {place}");
    }
    Ok(())
}

/// Makes the calls in order on an empty store, whose calls with the numbers in `failing` fail.
fn run(rt: &impl Abort, alloc: Global, failing: &[u64], rows: &[Row]) -> Result<(), NoMemory> {
    let mut store = MapStore::new(alloc, failing)?;
    let outcome = go_through(rt, alloc, &mut store, rows);
    drop(store);
    outcome
}

const LONG: &[u8] = &[0x61; 64];

const DONE: Result<(), StoreAnswer> = Ok(());

const ABSENT: Result<(), StoreAnswer> = Err(StoreAnswer::NotFound);

const THERE: Result<(), StoreAnswer> = Err(StoreAnswer::Exists);

const FULL: Result<(), StoreAnswer> = Err(StoreAnswer::NoSpace);

/// What is there of the object `a` in the end.
const FILLED: Facts = Facts {
    kind: 3,
    usage: 9,
    secret: 1,
    length: 1024,
};

const CHANGES: &[Row] = &[
    // Nothing is there.
    Row::Change(Step::Delete(b"a"), ABSENT),
    Row::Change(Step::Rename(b"a", b"b"), ABSENT),
    Row::Change(Step::Write(b"a", 0, b"x"), ABSENT),
    Row::Change(Step::Write(b"a", 0, b""), ABSENT),
    Row::Change(Step::Truncate(b"a", 5), ABSENT),
    // An obstacle comes before want of space, and an absent object before an obstacle.
    Row::Change(Step::New(b"f", 524_288), DONE),
    Row::Change(Step::New(b"a", 0), DONE),
    Row::Change(Step::New(b"a", 0), THERE),
    Row::Change(Step::New(b"a", 524_288), THERE),
    Row::Change(Step::Overwrite(b"a", 3), DONE),
    Row::Change(Step::Rename(b"a", b"a"), THERE),
    Row::Change(Step::New(LONG, 1), DONE),
    Row::Change(Step::Rename(b"a", LONG), THERE),
    Row::Change(Step::Rename(b"none", b"a"), ABSENT),
    // 513, 2 and 2 blocks are used, and 514,048 bytes take the other 503.
    Row::Change(Step::New(b"b", 514_049), FULL),
    Row::Change(Step::New(b"b", 514_048), DONE),
    Row::Change(Step::New(b"c", 0), FULL),
    Row::Change(Step::Write(b"a", 1024, b"x"), FULL),
    Row::Change(Step::Write(b"a", 1023, b"x"), DONE),
    Row::Change(Step::Write(b"a", 9999, b""), DONE),
    Row::Change(Step::Truncate(b"b", 514_049), FULL),
    Row::Change(Step::Overwrite(b"b", 514_049), FULL),
    Row::Change(Step::Rename(b"b", b"bb"), DONE),
    // A deletion makes room again.
    Row::Change(Step::Delete(LONG), DONE),
    Row::Change(Step::Delete(LONG), ABSENT),
    Row::Change(Step::New(b"c", 1024), DONE),
    Row::Change(Step::New(b"d", 0), FULL),
    Row::Change(Step::Truncate(b"c", 0), DONE),
    Row::Change(Step::New(b"d", 0), DONE),
    Row::Change(Step::New(b"e", 0), FULL),
    Row::Facts(b"a", Ok(FILLED)),
];

#[test]
fn changes_and_refusals(rt: HostRuntime) -> Result<(), NoMemory> {
    run(&rt, rt.alloc(), &[], CHANGES)
}

const RENAMED: &[Row] = &[
    Row::Change(Step::New(b"a", 5), DONE),
    Row::Change(Step::Rename(b"a", b"z"), DONE),
    Row::Facts(b"a", Err(StoreAnswer::NotFound)),
    Row::Secret(b"z", b"a"),
];

#[test]
fn a_renamed_object(rt: HostRuntime) -> Result<(), NoMemory> {
    run(&rt, rt.alloc(), &[], RENAMED)
}

const LARGEST: &[Row] = &[
    Row::Change(Step::New(LONG, 524_288), DONE),
    Row::Change(Step::Truncate(LONG, 1_043_457), FULL),
    Row::Change(Step::Truncate(LONG, 0xFFFF_FFFF), FULL),
    Row::Change(Step::Truncate(LONG, 1_043_456), DONE),
    Row::Change(Step::New(b"a", 0), FULL),
    Row::Content(LONG, 524_286, &[7, 7, 0, 0, 0, 0, 0]),
    Row::Content(LONG, 1_043_454, &[0, 0]),
];

#[test]
fn the_largest_object(rt: HostRuntime) -> Result<(), NoMemory> {
    run(&rt, rt.alloc(), &[], LARGEST)
}

const CONTENTS: &[Row] = &[
    Row::Change(Step::New(b"a", 3), DONE),
    Row::Change(Step::Write(b"a", 5, &[1, 2]), DONE),
    Row::Content(b"a", 0, &[7, 7, 7, 0, 0, 1, 2]),
    Row::Change(Step::Write(b"a", 1, &[9]), DONE),
    Row::Content(b"a", 0, &[7, 9, 7, 0, 0, 1, 2]),
    Row::Content(b"a", 8, &[]),
];

#[test]
fn contents(rt: HostRuntime) -> Result<(), NoMemory> {
    run(&rt, rt.alloc(), &[], CONTENTS)
}

const CUT_AND_FILLED: &[Row] = &[
    Row::Change(Step::New(b"a", 3), DONE),
    Row::Change(Step::Truncate(b"a", 2), DONE),
    Row::Change(Step::Truncate(b"a", 4), DONE),
    Row::Content(b"a", 0, &[7, 7, 0, 0]),
];

#[test]
fn cut_and_filled(rt: HostRuntime) -> Result<(), NoMemory> {
    run(&rt, rt.alloc(), &[], CUT_AND_FILLED)
}

const SIBLINGS: &[Row] = &[
    Row::Change(Step::New(b"b", 1), DONE),
    Row::Change(Step::New(b"aa", 2), DONE),
    Row::Change(Step::New(b"a", 3), DONE),
    Row::Change(Step::New(b"ab", 4), DONE),
    Row::Next(None, b"a", 3),
    Row::Next(Some(b""), b"a", 3),
    Row::Next(Some(b"a"), b"aa", 2),
    Row::Next(Some(b"aa"), b"ab", 4),
    Row::Next(Some(b"ac"), b"b", 1),
    Row::Last(Some(b"b")),
];

#[test]
fn enumeration(rt: HostRuntime) -> Result<(), NoMemory> {
    run(&rt, rt.alloc(), &[], SIBLINGS)
}

#[test]
fn nothing_follows_in_an_empty_store(rt: HostRuntime) -> Result<(), NoMemory> {
    run(&rt, rt.alloc(), &[], &[Row::Last(None)])
}

const FAILING: &[Row] = &[
    Row::Change(Step::New(b"a", 1), DONE),
    Row::Change(Step::New(b"b", 1), Err(StoreAnswer::Failed)),
    Row::Change(Step::Delete(b"a"), Err(StoreAnswer::Lost)),
    Row::Change(Step::Delete(b"z"), Err(StoreAnswer::Lost)),
    Row::Faults(1),
    Row::Facts(b"a", Err(StoreAnswer::Lost)),
    Row::Faults(1),
];

#[test]
fn a_failure_loses_the_store(rt: HostRuntime) -> Result<(), NoMemory> {
    run(&rt, rt.alloc(), &[3, 1], FAILING)
}
