//! Whether two stores have the same objects.

ghost use Rattle.std.specs.Prelude.{◌≤◌, length};
ghost use Rattle.store_api.specs.Limits.{IsIdentifier};

use std::alloc::Global;
use std::process::Abort;
use store_api::{AppStore, Listed, StoreAnswer};
use tee_base::Bytes;
use tee_base::limits::MAX_ASK_BYTES;

/// Whether both answers have the same bytes.
fn are_same_bytes(one: &Result<Bytes, StoreAnswer>, other: &Result<Bytes, StoreAnswer>) -> bool {
    match (one, other) {
        (Ok(one), Ok(other)) => one.as_slice() == other.as_slice(),
        _ => false,
    }
}

/// Whether the secret of an object is the same in both.
fn is_same_secret<S: AppStore, T: AppStore>(one: &mut S, other: &mut T, id: &[u8]) -> bool
    requires { IsIdentifier id.now }
{
    are_same_bytes(&one.secret(id), &other.secret(id))
}

/// Whether the content of an object is the same in both.
fn is_same_content<S: AppStore, T: AppStore>(one: &mut S, other: &mut T, id: &[u8]) -> bool
    requires { IsIdentifier id.now }
{
    are_same_bytes(
        &one.read(id, 0, MAX_ASK_BYTES),
        &other.read(id, 0, MAX_ASK_BYTES),
    )
}

/// Whether both list the same object with the same facts, or none.
fn is_same_listed(one: &Result<Listed, StoreAnswer>, other: &Result<Listed, StoreAnswer>) -> bool {
    match (one, other) {
        (Ok(one), Ok(other)) => {
            one.id.as_slice() == other.id.as_slice() && one.facts == other.facts
        }
        (Err(StoreAnswer::NotFound), Err(StoreAnswer::NotFound)) => true,
        _ => false,
    }
}

/// Whether both have the same objects, and fewer than this many.
pub fn are_same<S: AppStore, T: AppStore>(
    rt: &impl Abort,
    alloc: Global,
    one: &mut S,
    other: &mut T,
    most: u32,
) -> bool {
    let mut last = Bytes::from_slice(alloc, &[]).expect(rt, "no bytes");
    for _ in 0..most {
        let first = one.next_after(Some(last.as_slice()));
        let second = other.next_after(Some(last.as_slice()));
        let alike = is_same_listed(&first, &second);
        drop(first);
        drop(last);
        if !alike {
            drop(second);
            return false;
        }
        let Ok(listed) = second else {
            return true;
        };
        let id = listed.id;
        if !is_same_secret(one, other, id.as_slice())
            || !is_same_content(one, other, id.as_slice())
        {
            drop(id);
            return false;
        }
        last = id;
    }
    drop(last);
    false
}
