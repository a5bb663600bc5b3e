//! Every change with its refusals, beside a store in memory.

use super::steps::{Row, Step, Table, Told, run};
use tee_base::NoMemory;

// No object is there.
const ABSENT: &[Row] = &[
    (Step::Delete(b'a'), Told::NotFound),
    (Step::Rename(b'a', b'b'), Told::NotFound),
    (Step::Write(b'a', 0, 1), Told::NotFound),
    (Step::Truncate(b'a', 5), Told::NotFound),
];

// A new object, and one that is there.
const PUT: &[Row] = &[
    (Step::New(b'a', 0), Told::Done(2)),
    (Step::New(b'a', 0), Told::Exists),
    (Step::New(b'a', 300_000), Told::Exists),
    (Step::New(b'B', 1024), Told::Done(3)),
    (Step::Delete(b'a'), Told::Done(1)),
    (Step::New(b'c', 1025), Told::Done(4)),
    (Step::Delete(b'B'), Told::Done(1)),
    (Step::Delete(b'B'), Told::NotFound),
];

// More data, less, none, and where no object is.
const OVERWRITE: &[Row] = &[
    (Step::New(b'a', 1025), Told::Done(4)),
    (Step::Overwrite(b'a', 3000), Told::Done(5)),
    (Step::Overwrite(b'a', 10), Told::Done(3)),
    (Step::Overwrite(b'a', 0), Told::Done(2)),
    (Step::Overwrite(b'b', 2048), Told::Done(4)),
];

// A rename takes the data with it.
const RENAME: &[Row] = &[
    (Step::New(b'a', 3000), Told::Done(5)),
    (Step::New(b'b', 1), Told::Done(3)),
    (Step::Rename(b'a', b'b'), Told::Exists),
    (Step::Rename(b'a', b'a'), Told::Exists),
    (Step::Rename(b'a', b'Z'), Told::Done(1)),
    (Step::Rename(b'Z', b'c'), Told::Done(1)),
    (Step::Rename(b'Z', b'b'), Told::NotFound),
];

// Within a leaf, over two, no bytes, past the end with a gap in the last leaf and in leaves of its own.
const WRITE: &[Row] = &[
    (Step::New(b'a', 2049), Told::Done(5)),
    (Step::Write(b'a', 5, 9), Told::Done(1)),
    (Step::Write(b'a', 1020, 8), Told::Done(2)),
    (Step::Write(b'a', 9000, 0), Told::Done(0)),
    (Step::Write(b'a', 2060, 3), Told::Done(2)),
    (Step::Write(b'a', 5000, 3), Told::Done(4)),
    (Step::Write(b'a', 0, 5003), Told::Done(5)),
];

// Cut within a leaf, and filled by zeros again; cut at the end of a leaf; no content.
const TRUNCATE: &[Row] = &[
    (Step::New(b'a', 2500), Told::Done(5)),
    (Step::Truncate(b'a', 1030), Told::Done(3)),
    (Step::Truncate(b'a', 1100), Told::Done(1)),
    (Step::Truncate(b'a', 4000), Told::Done(4)),
    (Step::Truncate(b'a', 1024), Told::Done(2)),
    (Step::Truncate(b'a', 1024), Told::Done(0)),
    (Step::Truncate(b'a', 0), Told::Done(2)),
    (Step::Truncate(b'a', 1), Told::Done(3)),
];

// Two small objects beside two large ones, up to the last leaf.
const FULL: &[Row] = &[
    (Step::New(b'a', 10), Told::Done(3)),
    (Step::New(b'b', 1024), Told::Done(3)),
    (Step::New(b'c', 524_288), Told::Done(516)),
    (Step::New(b'e', 514_049), Told::NoSpace),
    (Step::New(b'e', 513_024), Told::Done(504)),
    (Step::New(b'd', 1), Told::NoSpace),
    (Step::New(b'd', 0), Told::Done(2)),
];

// An object that is there is told before the quota.
const NO_LEAF: &[Row] = &[
    (Step::New(b'a', 10), Told::Done(3)),
    (Step::New(b'c', 524_288), Told::Done(516)),
    (Step::New(b'e', 516_096), Told::Done(507)),
    (Step::New(b'a', 2000), Told::Exists),
    (Step::New(b'd', 0), Told::NoSpace),
    (Step::Overwrite(b'a', 1025), Told::NoSpace),
];

const NO_ROOM: &[Row] = &[
    (Step::New(b'a', 10), Told::Done(3)),
    (Step::New(b'c', 524_288), Told::Done(516)),
    (Step::New(b'e', 516_096), Told::Done(507)),
    (Step::Write(b'a', 1024, 1), Told::NoSpace),
    (Step::Write(b'a', 1020, 4), Told::Done(2)),
    (Step::Truncate(b'a', 1025), Told::NoSpace),
    (Step::Delete(b'c'), Told::Done(3)),
    (Step::Truncate(b'a', 0xFFFF_FFFF), Told::NoSpace),
    (Step::Truncate(b'a', 100_000), Told::Done(99)),
    (Step::Truncate(b'a', 526_337), Told::NoSpace),
    (Step::Truncate(b'a', 526_336), Told::Done(420)),
];

/// What each table is about, and its rows.
const TABLES: &[Table] = &[
    ("absent", ABSENT),
    ("put", PUT),
    ("overwrite", OVERWRITE),
    ("rename", RENAME),
    ("write", WRITE),
    ("truncate", TRUNCATE),
    ("full", FULL),
    ("no leaf", NO_LEAF),
    ("no room", NO_ROOM),
];

#[test]
fn each_change(rt: HostRuntime) -> Result<(), NoMemory> {
    for table in TABLES {
        run(&rt, rt.alloc(), table)?;
    }
    Ok(())
}
