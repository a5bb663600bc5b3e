//! Asks over a store that is damaged.

use super::rows::{AES, DONE, Do, MADE, PANICKED, PLAIN, Row, Told, run};
use object_asks::{Held, TurnKind};
use std::alloc::Global;
use std::process::Abort;
use store_api::MapStore;
use tee_base::{Code, NoMemory};
use test_damaged_store::{Damaged, Meets};

const DAMAGED: TurnKind = TurnKind::Corrupted;

const CORRUPT: Told = Told::Refused(Code::CORRUPT_OBJECT);

/// What was there before the damage.
const WHOLE: &[Row] = &[
    MADE,
    (1, Do::KeyNew(AES, 128), PLAIN, Told::Number(2)),
    (1, Do::ListNew, PLAIN, Told::Number(1)),
    (1, Do::ListStart(1, 1), PLAIN, DONE),
];

/// Each ask that needs the store once. A delete that is refused ends its handle.
const ROWS: &[Row] = &[
    (1, Do::Open(1, 1, b"b"), DAMAGED, CORRUPT),
    (1, Do::Create(1, 7, b"b", 0, b""), DAMAGED, CORRUPT),
    (1, Do::Create(1, 7, b"b", 1, b""), DAMAGED, CORRUPT),
    (1, Do::Create(1, 0x407, b"a", 0, b""), DAMAGED, CORRUPT),
    (1, Do::Close(3), PLAIN, PANICKED),
    (1, Do::Rename(1, b"b"), DAMAGED, CORRUPT),
    (1, Do::Rename(1, b"a"), DAMAGED, CORRUPT),
    (1, Do::Info(1), DAMAGED, CORRUPT),
    (1, Do::Read(1, 1), DAMAGED, CORRUPT),
    (1, Do::Write(1, b"x"), DAMAGED, CORRUPT),
    (1, Do::Truncate(1, 9), DAMAGED, CORRUPT),
    (1, Do::Seek(1, 0, 2), DAMAGED, CORRUPT),
    (1, Do::ListNext(1), DAMAGED, CORRUPT),
    (1, Do::ListStart(1, 1), DAMAGED, CORRUPT),
    (1, Do::KeySecret(1, 9), DAMAGED, CORRUPT),
    (1, Do::KeyCopy(2, 1), DAMAGED, CORRUPT),
    (1, Do::Delete(1), DAMAGED, CORRUPT),
    (1, Do::Read(1, 1), PLAIN, PANICKED),
    (1, Do::Close(1), PLAIN, PANICKED),
];

/// Makes the objects over a store that serves.
fn make_whole(rt: &impl Abort, alloc: Global, held: &mut Held) -> Result<(), NoMemory> {
    let mut store = MapStore::new(alloc, &[])?;
    let ran = run(rt, alloc, held, &mut store, WHOLE);
    drop(store);
    ran
}

/// Asks for them over one that is damaged.
fn meet(rt: &impl Abort, alloc: Global, held: &mut Held, met: Meets) -> Result<(), NoMemory> {
    let mut store = Damaged::always(met);
    let ran = run(rt, alloc, held, &mut store, ROWS);
    drop(store);
    ran
}

fn run_damaged(rt: &impl Abort, alloc: Global, met: Meets) -> Result<(), NoMemory> {
    let mut held = Held::new(alloc);
    let ran = match make_whole(rt, alloc, &mut held) {
        Ok(()) => meet(rt, alloc, &mut held, met),
        Err(error) => Err(error),
    };
    drop(held);
    ran
}

#[test]
fn damage_is_told_and_a_delete_ends_the_handle(rt: HostRuntime) -> Result<(), NoMemory> {
    run_damaged(&rt, rt.alloc(), Meets::OtherTag)?;
    run_damaged(&rt, rt.alloc(), Meets::BrokenRule)
}
