//! Changes of small objects.

ghost use Rattle.std.specs.Prelude.{◌≡◌, ◌≤◌, length};
ghost use Rattle.store_api.specs.Limits.{IsChange};

use std::alloc::Global;
use std::process::Abort;
use store_api::Change;
use tee_base::Bytes;

/// A change of an object whose identifier is one letter.
#[derive(Clone, Copy)]
pub enum Step {
    /// An object of so many bytes.
    New(u8, u16),
    Overwrite(u8, u16),
    Delete(u8),
    Rename(u8, u8),
    /// At a place, so many bytes.
    Write(u8, u16, u16),
    Truncate(u8, u32),
}

/// So many bytes of one kind.
fn painted(rt: &impl Abort, alloc: Global, byte: u8, count: u16) -> Bytes
    ensures { length result ≡ count }
{
    let mut bytes = Vec::new(alloc);
    let is_there = bytes.resize(count as usize, byte).is_ok();
    assert!(rt; is_there);
    Bytes::from_vec(bytes)
}

fn put(rt: &impl Abort, alloc: Global, letter: u8, count: u16, overwrite: bool) -> Change
    ensures { IsChange result }
{
    Change::Put {
        id: painted(rt, alloc, letter, 1),
        kind: u32::from(count),
        usage: u32::from(letter),
        secret: painted(rt, alloc, letter, 3),
        content: painted(rt, alloc, letter, count),
        overwrite,
    }
}

pub fn change_of(rt: &impl Abort, alloc: Global, step: Step) -> Change
    ensures { IsChange result }
{
    match step {
        Step::New(letter, count) => put(rt, alloc, letter, count, false),
        Step::Overwrite(letter, count) => put(rt, alloc, letter, count, true),
        Step::Delete(letter) => Change::Delete {
            id: painted(rt, alloc, letter, 1),
        },
        Step::Rename(letter, to) => Change::Rename {
            id: painted(rt, alloc, letter, 1),
            to: painted(rt, alloc, to, 1),
        },
        Step::Write(letter, at, count) => Change::Write {
            id: painted(rt, alloc, letter, 1),
            at: u32::from(at),
            bytes: painted(rt, alloc, 100, count),
        },
        Step::Truncate(letter, length) => Change::Truncate {
            id: painted(rt, alloc, letter, 1),
            length,
        },
    }
}
