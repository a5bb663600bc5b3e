//! Changes in words that a table can hold, and how they are made over leaves in memory and on a store beside them.
ghost use Rattle.std.specs.Prelude.{◌≡◌, ◌≤◌, IfOk, length};
ghost use Rattle.store_api.specs.Limits.{IsChange, IsIdentifier, IsSecret};

use super::memory::{Memory, commit, with};
use crate::letters::identifier_bytes;
use region_plan::{Form, content, next_after, plan, secret};
use std::alloc::Global;
use std::process::Abort;
use store_api::{AppStore, Change, Listed, MapStore, StoreAnswer};
use tee_base::limits::MAX_ASK_BYTES;
use tee_base::{Bytes, NoMemory};

/// The form of the regions that changes are made in.
const FORM: Form = Form::Two;

/// A change. An object's identifier is one letter, or the longest of that letter where it is a capital.
#[derive(Clone, Copy)]
pub enum Step {
    /// An object of so many bytes.
    New(u8, u32),
    Overwrite(u8, u32),
    Delete(u8),
    Rename(u8, u8),
    /// At a place, so many bytes.
    Write(u8, u16, u16),
    Truncate(u8, u32),
}

/// What comes of it.
#[derive(Clone, Copy)]
pub enum Told {
    /// At most so many leaves.
    Done(usize),
    NotFound,
    Exists,
    NoSpace,
}

pub type Row = (Step, Told);

/// A name, and rows.
pub type Table = (&'static str, &'static [Row]);

/// Fills bytes, so that no two leaves are alike.
fn paint(bytes: &mut [u8], first: u8) {
    let mut byte = first;
    for place in bytes.iter_mut() {
        *place = byte;
        byte = if byte < 250 { byte + 1 } else { 1 };
    }
}

/// So many bytes.
fn painted(alloc: Global, first: u8, count: usize) -> Result<Bytes, NoMemory>
    ensures { IfOk result (λ bytes. length bytes ≡ count) }
{
    let mut bytes = Vec::new(alloc);
    bytes.resize(count, 0u8)?;
    paint(bytes.as_mut_slice(), first);
    Ok(Bytes::from_vec(bytes))
}

/// The identifier of a letter.
fn identifier(alloc: Global, letter: u8) -> Result<Bytes, NoMemory>
    ensures { IfOk result (λ id. IsIdentifier id) }
{
    painted(alloc, letter, identifier_bytes(letter))
}

/// The secret of the object of a letter.
fn secret_of(alloc: Global, letter: u8) -> Result<Bytes, NoMemory>
    ensures { IfOk result (λ secret. IsSecret secret) }
{
    painted(alloc, letter, if letter < b'a' { 128 } else { 3 })
}

fn put(alloc: Global, letter: u8, count: u32, overwrite: bool) -> Result<Change, NoMemory>
    ensures { IfOk result (λ change. IsChange change) }
{
    Ok(Change::Put {
        id: identifier(alloc, letter)?,
        kind: count,
        usage: u32::from(letter),
        secret: secret_of(alloc, letter)?,
        content: painted(alloc, letter, count.min(MAX_ASK_BYTES) as usize)?,
        overwrite,
    })
}

pub fn change_of(alloc: Global, step: Step) -> Result<Change, NoMemory>
    ensures { IfOk result (λ change. IsChange change) }
{
    match step {
        Step::New(letter, count) => put(alloc, letter, count, false),
        Step::Overwrite(letter, count) => put(alloc, letter, count, true),
        Step::Delete(letter) => Ok(Change::Delete {
            id: identifier(alloc, letter)?,
        }),
        Step::Rename(letter, to) => Ok(Change::Rename {
            id: identifier(alloc, letter)?,
            to: identifier(alloc, to)?,
        }),
        Step::Write(letter, at, count) => Ok(Change::Write {
            id: identifier(alloc, letter)?,
            at: u32::from(at),
            bytes: painted(alloc, 100, count as usize)?,
        }),
        Step::Truncate(letter, length) => Ok(Change::Truncate {
            id: identifier(alloc, letter)?,
            length,
        }),
    }
}

/// Whether a refusal is the one that is wanted.
fn is_wanted(refusal: &StoreAnswer, wanted: Told) -> bool {
    match refusal {
        StoreAnswer::NotFound => matches!(wanted, Told::NotFound),
        StoreAnswer::Exists => matches!(wanted, Told::Exists),
        StoreAnswer::NoSpace => matches!(wanted, Told::NoSpace),
        _ => false,
    }
}

/// Plans a change and commits its leaves, and says whether that came which is wanted.
#[tactic(auto, using(region_plan::proofs::FormLemmas::most_leaves))]
fn is_planned(alloc: Global, memory: &mut Memory, change: &Change, wanted: Told) -> bool
    requires { IsChange change.now }
{
    match plan(alloc, memory, change) {
        Ok(leaves) => {
            commit(memory, &leaves);
            matches!(wanted, Told::Done(most) if leaves.as_slice().len() <= most)
        }
        Err(refusal) => is_wanted(&refusal, wanted),
    }
}

/// Makes a change of the store, and says whether that came which is wanted.
fn is_made(store: &mut MapStore, change: &Change, wanted: Told) -> bool
    requires { IsChange change.now }
{
    match store.apply(change) {
        Ok(()) => matches!(wanted, Told::Done(_)),
        Err(refusal) => is_wanted(&refusal, wanted),
    }
}

/// Whether the secret of an object is the same in both.
#[tactic(auto, using(region_plan::proofs::FormLemmas::most_leaves))]
fn is_same_secret(alloc: Global, memory: &mut Memory, store: &mut MapStore, id: &[u8]) -> bool
    requires { IsIdentifier id.now }
{
    let one = secret(alloc, memory, FORM, id);
    let other = store.secret(id);
    are_same_bytes(&one, &other)
}

/// Whether the content of an object is the same in both.
#[tactic(auto, using(region_plan::proofs::FormLemmas::most_leaves))]
fn is_same_content(alloc: Global, memory: &mut Memory, store: &mut MapStore, id: &[u8]) -> bool
    requires { IsIdentifier id.now }
{
    let one = content(alloc, memory, FORM, id, 0, MAX_ASK_BYTES);
    let other = store.read(id, 0, MAX_ASK_BYTES);
    are_same_bytes(&one, &other)
}

/// Whether both answers are bytes, and the same.
fn are_same_bytes(one: &Result<Bytes, StoreAnswer>, other: &Result<Bytes, StoreAnswer>) -> bool {
    match (one, other) {
        (Ok(one), Ok(other)) => one.as_slice() == other.as_slice(),
        _ => false,
    }
}

/// Whether both list the same object with the same facts, or none.
pub fn is_same_listed(
    one: &Result<Listed, StoreAnswer>,
    other: &Result<Listed, StoreAnswer>,
) -> bool {
    match (one, other) {
        (Ok(one), Ok(other)) => {
            one.id.as_slice() == other.id.as_slice() && one.facts == other.facts
        }
        (Err(StoreAnswer::NotFound), Err(StoreAnswer::NotFound)) => true,
        _ => false,
    }
}

/// Whether both list the same behind an identifier.
#[tactic(auto, using(region_plan::proofs::FormLemmas::most_leaves))]
fn is_same_next(alloc: Global, memory: &mut Memory, store: &mut MapStore, last: &[u8]) -> bool {
    let one = next_after(alloc, memory, FORM, Some(last));
    let other = store.next_after(Some(last));
    is_same_listed(&one, &other)
}

/// What the store lists behind an identifier.
fn next_in(store: &mut MapStore, last: &[u8]) -> Result<Bytes, StoreAnswer>
    ensures { IfOk result (λ id. IsIdentifier id) }
{
    match store.next_after(Some(last)) {
        Ok(listed) => Ok(listed.id),
        Err(answer) => Err(answer),
    }
}

/// Whether both have the same objects.
fn are_same(alloc: Global, memory: &mut Memory, store: &mut MapStore) -> bool {
    let mut last = Bytes::empty(alloc);
    for _ in 0..9 {
        if !is_same_next(alloc, memory, store, last.as_slice()) {
            return false;
        }
        let id = match next_in(store, last.as_slice()) {
            Ok(id) => id,
            Err(answer) => return matches!(answer, StoreAnswer::NotFound),
        };
        if !is_same_secret(alloc, memory, store, id.as_slice())
            || !is_same_content(alloc, memory, store, id.as_slice())
        {
            return false;
        }
        last = id;
    }
    false
}

/// Makes a change, and says whether that came which is wanted, and both are the same after it.
fn holds(
    alloc: Global,
    memory: &mut Memory,
    store: &mut MapStore,
    row: &Row,
) -> Result<bool, NoMemory> {
    let change = change_of(alloc, row.0)?;
    let came = is_planned(alloc, memory, &change, row.1) && is_made(store, &change, row.1);
    drop(change);
    Ok(came && are_same(alloc, memory, store))
}

/// Makes the change of each row.
fn go_through(
    rt: &impl Abort,
    alloc: Global,
    memory: &mut Memory,
    store: &mut MapStore,
    table: &Table,
) -> Result<(), NoMemory> {
    for (place, row) in table.1.iter().enumerate() {
        assert!(rt;
            holds(alloc, memory, store, row)?,
            "{}, row {place}",
            table.0
        );
    }
    Ok(())
}

/// Makes the change of each row on a new store, beside these leaves.
fn run_beside(
    rt: &impl Abort,
    alloc: Global,
    memory: &mut Memory,
    table: &Table,
) -> Result<(), NoMemory> {
    let mut store = MapStore::new(alloc, &[])?;
    let outcome = go_through(rt, alloc, memory, &mut store, table);
    drop(store);
    outcome
}

/// Makes the change of each row, from a region of zeros and an empty store.
pub fn run(rt: &impl Abort, alloc: Global, table: &Table) -> Result<(), NoMemory> {
    let mut memory = with(alloc, &[])?;
    let outcome = run_beside(rt, alloc, &mut memory, table);
    drop(memory);
    outcome
}
