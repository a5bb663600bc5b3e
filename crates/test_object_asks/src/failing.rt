//! Asks over a store of which a call fails, and which is lost from then on.

use super::rows::{
    AES, ALL, DONE, DOUBT, Do, GONE, LOST, MADE, META, NO_BYTES, NOT_FOUND, OVERFLOW, PANICKED,
    PLAIN, Row, Told, UNSUPPORTED, run_table,
};
use std::alloc::Global;
use std::process::Abort;
use tee_base::NoMemory;

/// The number of the call that fails, from 0 on, and the rows.
type Failing = (u64, &'static [Row]);

const KEY: Row = (1, Do::KeyNew(AES, 128), PLAIN, Told::Number(2));

const LIST: Row = (1, Do::ListNew, PLAIN, Told::Number(1));

const OPENING: &[Failing] = &[
    (
        0,
        &[
            (1, Do::Create(1, META, b"a", 0, b"1"), DOUBT, LOST),
            (1, Do::Read(1, 1), PLAIN, PANICKED),
            (1, Do::Create(1, META, b"a", 0, b"1"), PLAIN, LOST),
            (1, Do::Close(1), PLAIN, PANICKED),
        ],
    ),
    (
        1,
        &[
            MADE,
            (1, Do::Create(1, META, b"b", 0, b"2"), DOUBT, LOST),
            (1, Do::Read(2, 1), PLAIN, PANICKED),
            (1, Do::Close(1), PLAIN, DONE),
        ],
    ),
    // an object is made of one in the store: its kind and its secret are read, and it is put
    (
        1,
        &[
            MADE,
            (1, Do::Create(1, META, b"b", 1, b""), DOUBT, LOST),
            (1, Do::Read(2, 1), PLAIN, PANICKED),
        ],
    ),
    (
        2,
        &[
            MADE,
            (1, Do::Create(1, META, b"b", 1, b""), DOUBT, LOST),
            (1, Do::Read(2, 1), PLAIN, PANICKED),
        ],
    ),
    (
        3,
        &[
            MADE,
            (1, Do::Create(1, META, b"b", 1, b""), DOUBT, LOST),
            (1, Do::Read(2, 1), PLAIN, PANICKED),
        ],
    ),
    // a handle is open on it
    (
        1,
        &[
            MADE,
            (1, Do::Create(1, 0x407, b"a", 0, b""), DOUBT, LOST),
            (1, Do::Read(1, 0), PLAIN, NO_BYTES),
        ],
    ),
    (
        1,
        &[
            MADE,
            (1, Do::Open(1, ALL, b"b"), GONE, LOST),
            (1, Do::Open(1, ALL, b"b"), PLAIN, LOST),
            (1, Do::Close(2), PLAIN, PANICKED),
        ],
    ),
];

const CHANGING: &[Failing] = &[
    (
        1,
        &[
            MADE,
            (1, Do::Delete(1), DOUBT, LOST),
            (1, Do::Read(1, 0), PLAIN, PANICKED),
        ],
    ),
    (
        1,
        &[
            MADE,
            (1, Do::Rename(1, b"b"), DOUBT, LOST),
            (1, Do::Rename(1, b"b"), PLAIN, LOST),
            (1, Do::Close(1), PLAIN, DONE),
        ],
    ),
    (
        1,
        &[
            MADE,
            (1, Do::Rename(1, b"a"), DOUBT, LOST),
            (1, Do::Read(1, 0), PLAIN, NO_BYTES),
        ],
    ),
    (
        1,
        &[
            MADE,
            (1, Do::Write(1, b"b"), DOUBT, LOST),
            (1, Do::Write(1, b"b"), PLAIN, LOST),
            (1, Do::Close(1), PLAIN, DONE),
        ],
    ),
    (
        1,
        &[
            MADE,
            (1, Do::Truncate(1, 9), DOUBT, LOST),
            (1, Do::Truncate(1, 9), PLAIN, LOST),
        ],
    ),
];

const READING: &[Failing] = &[
    (
        1,
        &[
            MADE,
            (1, Do::Info(1), GONE, LOST),
            (1, Do::Info(1), PLAIN, LOST),
        ],
    ),
    (
        1,
        &[
            MADE,
            (1, Do::Read(1, 1), GONE, LOST),
            (1, Do::Read(1, 1), PLAIN, LOST),
        ],
    ),
    (
        1,
        &[
            MADE,
            (1, Do::Seek(1, 0, 2), GONE, LOST),
            (1, Do::Seek(1, 0, 2), PLAIN, LOST),
        ],
    ),
    (
        1,
        &[
            MADE,
            LIST,
            (1, Do::ListStart(1, 1), GONE, LOST),
            (1, Do::ListStart(1, 1), PLAIN, LOST),
            (1, Do::ListNext(1), PLAIN, NOT_FOUND),
        ],
    ),
    (
        2,
        &[
            MADE,
            LIST,
            (1, Do::ListStart(1, 1), PLAIN, DONE),
            (1, Do::ListNext(1), GONE, LOST),
            (1, Do::ListNext(1), PLAIN, LOST),
        ],
    ),
    (
        1,
        &[
            MADE,
            (1, Do::KeySecret(1, 9), GONE, LOST),
            (1, Do::KeySecret(1, 9), PLAIN, LOST),
        ],
    ),
    (
        2,
        &[
            MADE,
            (1, Do::KeySecret(1, 9), GONE, LOST),
            (1, Do::KeySecret(1, 9), PLAIN, LOST),
        ],
    ),
    (
        1,
        &[
            MADE,
            KEY,
            (1, Do::KeyCopy(2, 1), GONE, LOST),
            (1, Do::KeyCopy(2, 1), PLAIN, LOST),
        ],
    ),
    (
        2,
        &[
            MADE,
            KEY,
            (1, Do::KeyCopy(2, 1), GONE, LOST),
            (1, Do::KeyCopy(2, 1), PLAIN, LOST),
        ],
    ),
];

/// What needs no store, and what is answered before it is asked.
const WITHOUT_THE_STORE: &[Row] = &[
    MADE,
    (1, Do::Read(1, 1), GONE, LOST),
    (1, Do::Read(1, 0), PLAIN, NO_BYTES),
    (1, Do::Write(1, b""), PLAIN, DONE),
    (1, Do::Seek(1, 0xFFFF_FFFF, 0), PLAIN, DONE),
    (1, Do::Seek(1, 1, 1), PLAIN, OVERFLOW),
    (1, Do::Write(1, b"x"), PLAIN, OVERFLOW),
    (1, Do::Open(2, ALL, b"a"), PLAIN, NOT_FOUND),
    (1, Do::Open(1, 8, b"a"), PLAIN, PANICKED),
    (1, Do::Create(2, ALL, b"b", 0, b""), PLAIN, NOT_FOUND),
    (1, Do::Create(1, ALL, b"b", 9, b""), PLAIN, PANICKED),
    (1, Do::Create(1, ALL, b"b", 1, b""), PLAIN, LOST),
    (1, Do::Create(1, 0x407, b"a", 0, b""), PLAIN, LOST),
    (1, Do::Rename(1, b"a"), PLAIN, LOST),
    KEY,
    (
        1,
        Do::Info(2),
        PLAIN,
        Told::Object([AES, 0, 128, 0xFFFF_FFFF, 0, 0, 0]),
    ),
    (1, Do::KeyPopulate(2, &[7; 16]), PLAIN, DONE),
    (1, Do::KeySecret(2, 16), PLAIN, Told::Bytes(&[7; 16])),
    (1, Do::KeyNew(AES, 128), PLAIN, Told::Number(3)),
    (1, Do::KeyCopy(3, 2), PLAIN, DONE),
    (1, Do::KeyRestrict(3, 1), PLAIN, DONE),
    (1, Do::KeyRestrict(1, 1), PLAIN, UNSUPPORTED),
    (1, Do::KeyReset(3), PLAIN, DONE),
    (1, Do::Create(1, ALL, b"b", 2, b""), PLAIN, LOST),
    (1, Do::ListNew, PLAIN, Told::Number(1)),
    (1, Do::ListStart(1, 2), PLAIN, NOT_FOUND),
    (1, Do::ListNext(1), PLAIN, NOT_FOUND),
    (1, Do::ListReset(1), PLAIN, DONE),
    (1, Do::ListFree(1), PLAIN, DONE),
    (1, Do::Close(2), PLAIN, DONE),
    // a delete that is refused ends its handle
    (1, Do::Delete(0), PLAIN, DONE),
    (1, Do::Delete(1), PLAIN, LOST),
    (1, Do::Close(1), PLAIN, PANICKED),
];

/// The rows of each table over an empty store of which its call fails.
fn run_failing(rt: &impl Abort, alloc: Global, tables: &[Failing]) -> Result<(), NoMemory> {
    for (call, rows) in tables {
        run_table(rt, alloc, &[*call], rows)?;
    }
    Ok(())
}

#[test]
fn a_failed_open_or_change_leaves_what_is_stated(rt: HostRuntime) -> Result<(), NoMemory> {
    run_failing(&rt, rt.alloc(), OPENING)?;
    run_failing(&rt, rt.alloc(), CHANGING)
}

#[test]
fn a_failed_read_leaves_what_is_stated(rt: HostRuntime) -> Result<(), NoMemory> {
    run_failing(&rt, rt.alloc(), READING)
}

#[test]
fn what_needs_no_store_goes_on(rt: HostRuntime) -> Result<(), NoMemory> {
    run_table(&rt, rt.alloc(), &[1], WITHOUT_THE_STORE)
}
