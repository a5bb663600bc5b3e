//! Asks about persistent objects.

use super::rows::{
    AES, ALL, BUSY, CONFLICT, DATA, DONE, Do, EVERY, MADE, META, NO_BYTES, NO_SPACE, NOT_FOUND,
    OVERFLOW, PANICKED, PLAIN, Row, Told, UNSUPPORTED, run_tables,
};
use tee_base::NoMemory;

/// The longest identifier, and one that is too long.
const LONGEST: &[u8] = &[7; 64];

const TOO_LONG: &[u8] = &[7; 65];

const KEY: Do = Do::KeyNew(AES, 128);

/// Two instances on one object.
const SHARED: &[Row] = &[
    (
        1,
        Do::Create(1, ALL, b"a", 0, b"1234"),
        PLAIN,
        Told::Number(1),
    ),
    (2, Do::Open(1, 1, b"a"), PLAIN, CONFLICT),
    (2, Do::Create(1, 0x433, b"a", 0, b""), PLAIN, CONFLICT),
    (2, Do::Open(1, ALL, b"a"), PLAIN, Told::Number(1)),
    (2, Do::Read(1, 2), PLAIN, Told::Bytes(b"12")),
    (2, Do::Write(1, b"x"), PLAIN, DONE),
    (1, Do::Read(1, 9), PLAIN, Told::Bytes(b"12x4")),
    (2, Do::Close(2), PLAIN, PANICKED),
    (1, Do::Close(1), PLAIN, DONE),
    (1, Do::Read(1, 1), PLAIN, PANICKED),
    (
        2,
        Do::Info(1),
        PLAIN,
        Told::Object([DATA, 0, 0, EVERY, 4, 3, ALL]),
    ),
    (2, Do::Read(1, 9), PLAIN, Told::Bytes(b"4")),
    (2, Do::Other, PLAIN, PANICKED),
];

const OPEN: &[Row] = &[
    (
        1,
        Do::Create(1, ALL, b"a", 0, b"12"),
        PLAIN,
        Told::Number(1),
    ),
    (1, Do::Open(1, 0x8, b"a"), PLAIN, PANICKED),
    (1, Do::Open(2, 0x800, b"a"), PLAIN, PANICKED),
    (1, Do::Open(1, ALL, TOO_LONG), PLAIN, PANICKED),
    (1, Do::Open(2, ALL, b"a"), PLAIN, NOT_FOUND),
    (1, Do::Open(1, ALL, b"b"), PLAIN, NOT_FOUND),
    (1, Do::Open(1, ALL, LONGEST), PLAIN, NOT_FOUND),
    (1, Do::Open(1, 1, b"a"), PLAIN, CONFLICT),
    (1, Do::Open(1, META, b"a"), PLAIN, CONFLICT),
    // an OVERWRITE is ignored and not kept
    (1, Do::Open(1, 0x433, b"a"), PLAIN, Told::Number(2)),
    (
        1,
        Do::Info(2),
        PLAIN,
        Told::Object([DATA, 0, 0, EVERY, 2, 0, ALL]),
    ),
    (1, Do::Close(1), PLAIN, DONE),
    (1, Do::Open(1, ALL, b"a"), PLAIN, Told::Number(1)),
];

const CREATE: &[Row] = &[
    (1, Do::Create(1, 8, b"a", 0, b""), PLAIN, PANICKED),
    (1, Do::Create(1, META, TOO_LONG, 0, b""), PLAIN, PANICKED),
    (1, Do::Create(2, META, b"a", 9, b""), PLAIN, PANICKED),
    (1, Do::Create(2, META, b"a", 0, b""), PLAIN, NOT_FOUND),
    (1, Do::CreateZeros(b"a", 524_289), PLAIN, PANICKED),
    (1, Do::CreateZeros(b"a", 524_288), PLAIN, Told::Number(1)),
    (1, Do::CreateZeros(b"b", 524_288), PLAIN, NO_SPACE),
    (1, Do::Delete(1), PLAIN, DONE),
    MADE,
    // a handle is open on it
    (1, Do::Create(1, 0x407, b"a", 0, b""), PLAIN, CONFLICT),
    // of an object without secret
    (1, Do::Create(1, 3, b"b", 1, b"5"), PLAIN, Told::Number(2)),
    (
        1,
        Do::Info(2),
        PLAIN,
        Told::Object([DATA, 0, 0, EVERY, 1, 0, 3]),
    ),
    (1, Do::Close(2), PLAIN, DONE),
    (1, Do::Create(1, 3, b"b", 0, b""), PLAIN, CONFLICT),
    (
        1,
        Do::Create(1, 0x403, b"b", 0, b"67"),
        PLAIN,
        Told::Number(2),
    ),
    (
        1,
        Do::Info(2),
        PLAIN,
        Told::Object([DATA, 0, 0, EVERY, 2, 0, 3]),
    ),
    (1, Do::Read(2, 9), PLAIN, Told::Bytes(b"67")),
    // of 1,020 leaves 1,017 and 2 are used
    (1, Do::Truncate(1, 1_040_000), PLAIN, DONE),
    (1, Do::Create(1, 3, b"c", 0, b"8"), PLAIN, NO_SPACE),
    (1, Do::Create(1, 3, b"c", 0, b""), PLAIN, Told::Number(3)),
    (1, Do::Create(1, 3, b"d", 0, b""), PLAIN, NO_SPACE),
];

const CLOSE_AND_DELETE: &[Row] = &[
    MADE,
    (1, Do::Create(1, 3, b"b", 0, b""), PLAIN, Told::Number(2)),
    (1, KEY, PLAIN, Told::Number(3)),
    (1, Do::Delete(2), PLAIN, PANICKED),
    (1, Do::Delete(3), PLAIN, PANICKED),
    (1, Do::Delete(9), PLAIN, PANICKED),
    (1, Do::Delete(0), PLAIN, DONE),
    (1, Do::Delete(1), PLAIN, DONE),
    (1, Do::Read(1, 1), PLAIN, PANICKED),
    (1, Do::Open(1, META, b"a"), PLAIN, NOT_FOUND),
    (1, Do::Close(0), PLAIN, DONE),
    (1, Do::Close(1), PLAIN, PANICKED),
    (1, Do::Close(2), PLAIN, DONE),
    (1, Do::Close(2), PLAIN, PANICKED),
    (1, Do::Close(3), PLAIN, DONE),
    (1, Do::Info(3), PLAIN, PANICKED),
    (1, Do::Open(1, 3, b"b"), PLAIN, Told::Number(1)),
];

const RENAME: &[Row] = &[
    MADE,
    (1, Do::Create(1, 3, b"b", 0, b""), PLAIN, Told::Number(2)),
    (1, KEY, PLAIN, Told::Number(3)),
    (1, Do::Rename(2, b"c"), PLAIN, PANICKED),
    (1, Do::Rename(3, b"c"), PLAIN, PANICKED),
    (1, Do::Rename(9, b"c"), PLAIN, PANICKED),
    (1, Do::Rename(0, b"c"), PLAIN, PANICKED),
    (1, Do::Rename(1, TOO_LONG), PLAIN, PANICKED),
    (1, Do::Rename(1, b"a"), PLAIN, CONFLICT),
    (1, Do::Rename(1, b"b"), PLAIN, CONFLICT),
    (1, Do::Close(2), PLAIN, DONE),
    (1, Do::Rename(1, b"b"), PLAIN, CONFLICT),
    (1, Do::Read(1, 1), PLAIN, Told::Bytes(b"1")),
    (1, Do::Rename(1, b"c"), PLAIN, DONE),
    (1, Do::Read(1, 9), PLAIN, Told::Bytes(b"234")),
    (1, Do::Open(1, META, b"a"), PLAIN, NOT_FOUND),
    (1, Do::Open(1, META, b"c"), PLAIN, CONFLICT),
    (1, Do::Close(1), PLAIN, DONE),
    (1, Do::Open(1, META, b"c"), PLAIN, Told::Number(1)),
];

const INFO: &[Row] = &[
    MADE,
    (
        1,
        Do::Info(1),
        PLAIN,
        Told::Object([DATA, 0, 0, EVERY, 4, 0, META]),
    ),
    (1, Do::Read(1, 3), PLAIN, Told::Bytes(b"123")),
    (
        1,
        Do::Info(1),
        PLAIN,
        Told::Object([DATA, 0, 0, EVERY, 4, 3, META]),
    ),
    (1, Do::Info(9), PLAIN, PANICKED),
    (1, Do::Info(0), PLAIN, PANICKED),
    (2, Do::Info(1), PLAIN, PANICKED),
];

const READ: &[Row] = &[
    (
        1,
        Do::Create(1, 2, b"a", 0, b"1234"),
        PLAIN,
        Told::Number(1),
    ),
    (1, KEY, PLAIN, Told::Number(2)),
    (1, Do::Read(1, 1), PLAIN, PANICKED),
    (1, Do::Read(1, 0), PLAIN, PANICKED),
    (1, Do::Read(2, 1), PLAIN, PANICKED),
    (1, Do::Read(2, 0), PLAIN, PANICKED),
    (1, Do::Read(9, 1), PLAIN, PANICKED),
    (1, Do::Close(1), PLAIN, DONE),
    (1, Do::Open(1, 1, b"a"), PLAIN, Told::Number(1)),
    (1, Do::Read(1, 524_289), PLAIN, PANICKED),
    (1, Do::Read(1, 0), PLAIN, NO_BYTES),
    (1, Do::Read(1, 3), PLAIN, Told::Bytes(b"123")),
    (1, Do::Read(1, 524_288), PLAIN, Told::Bytes(b"4")),
    (1, Do::Read(1, 1), PLAIN, NO_BYTES),
];

const WRITE: &[Row] = &[
    (
        1,
        Do::Create(1, 3, b"a", 0, b"1234"),
        PLAIN,
        Told::Number(1),
    ),
    (1, KEY, PLAIN, Told::Number(2)),
    (1, Do::Write(2, b"x"), PLAIN, PANICKED),
    (1, Do::Write(2, b""), PLAIN, PANICKED),
    (1, Do::Write(9, b"x"), PLAIN, PANICKED),
    (1, Do::WriteZeros(1, 524_289), PLAIN, PANICKED),
    (1, Do::Seek(1, 600_000, 0), PLAIN, DONE),
    (1, Do::WriteZeros(1, 524_288), PLAIN, NO_SPACE),
    (1, Do::Seek(1, 0, 0), PLAIN, DONE),
    (1, Do::Write(1, b""), PLAIN, DONE),
    (1, Do::Write(1, b"xy"), PLAIN, DONE),
    (1, Do::Read(1, 9), PLAIN, Told::Bytes(b"34")),
    // a gap
    (1, Do::Seek(1, 6, 0), PLAIN, DONE),
    (1, Do::Write(1, b"z"), PLAIN, DONE),
    (1, Do::Seek(1, 0, 0), PLAIN, DONE),
    (1, Do::Read(1, 9), PLAIN, Told::Bytes(b"xy34\0\0z")),
    (1, Do::Seek(1, 0xFFFF_FFFF, 0), PLAIN, DONE),
    (1, Do::Write(1, b""), PLAIN, DONE),
    (1, Do::Write(1, b"x"), PLAIN, OVERFLOW),
    (1, Do::Seek(1, 0xFFFF_FFFE, 0), PLAIN, DONE),
    (1, Do::Write(1, b"x"), PLAIN, NO_SPACE),
    (1, Do::Seek(1, 1_043_456, 0), PLAIN, DONE),
    (1, Do::Write(1, b"x"), PLAIN, NO_SPACE),
    (
        1,
        Do::Info(1),
        PLAIN,
        Told::Object([DATA, 0, 0, EVERY, 7, 1_043_456, 3]),
    ),
    (1, Do::Seek(1, 1_043_455, 0), PLAIN, DONE),
    (1, Do::Write(1, b"x"), PLAIN, DONE),
    (
        1,
        Do::Info(1),
        PLAIN,
        Told::Object([DATA, 0, 0, EVERY, 1_043_456, 1_043_456, 3]),
    ),
    (1, Do::Close(1), PLAIN, DONE),
    (1, Do::Open(1, 1, b"a"), PLAIN, Told::Number(1)),
    (1, Do::Write(1, b"x"), PLAIN, PANICKED),
    (1, Do::Write(1, b""), PLAIN, PANICKED),
];

const TRUNCATE: &[Row] = &[
    (
        1,
        Do::Create(1, 3, b"a", 0, b"1234"),
        PLAIN,
        Told::Number(1),
    ),
    (1, KEY, PLAIN, Told::Number(2)),
    (1, Do::Truncate(2, 1), PLAIN, PANICKED),
    (1, Do::Truncate(9, 1), PLAIN, PANICKED),
    (1, Do::Read(1, 3), PLAIN, Told::Bytes(b"123")),
    (1, Do::Truncate(1, 6), PLAIN, DONE),
    (
        1,
        Do::Info(1),
        PLAIN,
        Told::Object([DATA, 0, 0, EVERY, 6, 3, 3]),
    ),
    (1, Do::Read(1, 9), PLAIN, Told::Bytes(b"4\0\0")),
    (1, Do::Truncate(1, 2), PLAIN, DONE),
    (
        1,
        Do::Info(1),
        PLAIN,
        Told::Object([DATA, 0, 0, EVERY, 2, 6, 3]),
    ),
    (1, Do::Read(1, 9), PLAIN, NO_BYTES),
    (1, Do::Truncate(1, 1_043_457), PLAIN, NO_SPACE),
    (1, Do::Truncate(1, 0xFFFF_FFFF), PLAIN, NO_SPACE),
    (1, Do::Truncate(1, 1_043_456), PLAIN, DONE),
    (1, Do::Close(1), PLAIN, DONE),
    (1, Do::Open(1, 1, b"a"), PLAIN, Told::Number(1)),
    (1, Do::Truncate(1, 0), PLAIN, PANICKED),
];

const SEEK: &[Row] = &[
    (
        1,
        Do::Create(1, 1, b"a", 0, b"1234"),
        PLAIN,
        Told::Number(1),
    ),
    (1, KEY, PLAIN, Told::Number(2)),
    (1, Do::Seek(2, 0, 0), PLAIN, PANICKED),
    (1, Do::Seek(9, 0, 0), PLAIN, PANICKED),
    (1, Do::Seek(1, 0, 3), PLAIN, PANICKED),
    (1, Do::Seek(1, 2, 0), PLAIN, DONE),
    (1, Do::Read(1, 1), PLAIN, Told::Bytes(b"3")),
    (1, Do::Seek(1, -1, 1), PLAIN, DONE),
    (1, Do::Read(1, 9), PLAIN, Told::Bytes(b"34")),
    (1, Do::Seek(1, -3, 2), PLAIN, DONE),
    (1, Do::Read(1, 1), PLAIN, Told::Bytes(b"2")),
    // below 0
    (1, Do::Seek(1, -9, 2), PLAIN, DONE),
    (1, Do::Read(1, 1), PLAIN, Told::Bytes(b"1")),
    (1, Do::Seek(1, -1, 0), PLAIN, DONE),
    (1, Do::Read(1, 1), PLAIN, Told::Bytes(b"1")),
    (1, Do::Seek(1, -2, 1), PLAIN, DONE),
    (1, Do::Read(1, 1), PLAIN, Told::Bytes(b"1")),
    // above what a position can be
    (1, Do::Seek(1, 0x1_0000_0000, 0), PLAIN, OVERFLOW),
    (1, Do::Seek(1, 0xFFFF_FFFC, 2), PLAIN, OVERFLOW),
    (1, Do::Seek(1, 0x7FFF_FFFF_FFFF_FFFF, 1), PLAIN, OVERFLOW),
    (1, Do::Read(1, 1), PLAIN, Told::Bytes(b"2")),
    (1, Do::Seek(1, 0xFFFF_FFFF, 0), PLAIN, DONE),
    (1, Do::Seek(1, 1, 1), PLAIN, OVERFLOW),
    (
        1,
        Do::Info(1),
        PLAIN,
        Told::Object([DATA, 0, 0, EVERY, 4, 0xFFFF_FFFF, 1]),
    ),
    (1, Do::Seek(1, -0x8000_0000_0000_0000, 1), PLAIN, DONE),
    (1, Do::Read(1, 1), PLAIN, Told::Bytes(b"1")),
];

/// An instance has 16 handles of both sorts.
const FULL: &[Row] = &[
    MADE,
    (1, KEY, PLAIN, Told::Number(2)),
    (1, KEY, PLAIN, Told::Number(3)),
    (1, KEY, PLAIN, Told::Number(4)),
    (1, KEY, PLAIN, Told::Number(5)),
    (1, KEY, PLAIN, Told::Number(6)),
    (1, KEY, PLAIN, Told::Number(7)),
    (1, KEY, PLAIN, Told::Number(8)),
    (1, KEY, PLAIN, Told::Number(9)),
    (1, KEY, PLAIN, Told::Number(10)),
    (1, KEY, PLAIN, Told::Number(11)),
    (1, KEY, PLAIN, Told::Number(12)),
    (1, KEY, PLAIN, Told::Number(13)),
    (1, KEY, PLAIN, Told::Number(14)),
    (1, KEY, PLAIN, Told::Number(15)),
    (1, KEY, PLAIN, Told::Number(16)),
    (1, KEY, PLAIN, BUSY),
    (1, Do::Open(1, META, b"b"), PLAIN, BUSY),
    (1, Do::Open(2, META, b"b"), PLAIN, NOT_FOUND),
    (1, Do::Create(1, META, b"a", 0, b""), PLAIN, BUSY),
    (1, Do::Create(2, META, b"a", 0, b""), PLAIN, NOT_FOUND),
    (1, Do::KeyNew(AES, 100), PLAIN, UNSUPPORTED),
    (2, KEY, PLAIN, Told::Number(1)),
    (1, Do::Close(7), PLAIN, DONE),
    (1, KEY, PLAIN, Told::Number(7)),
];

/// Handles are opened and closed.
const OPENING: &[&[Row]] = &[SHARED, OPEN, CREATE];

/// Objects end, and get other names.
const NAMING: &[&[Row]] = &[CLOSE_AND_DELETE, RENAME, INFO];

const CONTENT: &[&[Row]] = &[READ, WRITE];

const PLACES: &[&[Row]] = &[TRUNCATE, SEEK, FULL];

#[test]
fn handles_are_opened(rt: HostRuntime) -> Result<(), NoMemory> {
    run_tables(&rt, rt.alloc(), OPENING)
}

#[test]
fn objects_end_and_are_named(rt: HostRuntime) -> Result<(), NoMemory> {
    run_tables(&rt, rt.alloc(), NAMING)
}

#[test]
fn content_is_read_and_written(rt: HostRuntime) -> Result<(), NoMemory> {
    run_tables(&rt, rt.alloc(), CONTENT)
}

#[test]
fn places_and_handles_have_limits(rt: HostRuntime) -> Result<(), NoMemory> {
    run_tables(&rt, rt.alloc(), PLACES)
}
