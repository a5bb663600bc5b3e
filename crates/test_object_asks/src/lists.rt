//! Asks about enumerators.

use super::rows::{BUSY, DATA, DONE, Do, EVERY, NOT_FOUND, PANICKED, PLAIN, Row, Told, run_tables};
use tee_base::NoMemory;

const NUMBERS: &[Row] = &[
    (1, Do::ListNew, PLAIN, Told::Number(1)),
    (1, Do::ListNew, PLAIN, Told::Number(2)),
    (1, Do::ListNew, PLAIN, Told::Number(3)),
    (1, Do::ListNew, PLAIN, Told::Number(4)),
    (1, Do::ListNew, PLAIN, BUSY),
    (2, Do::ListNew, PLAIN, Told::Number(1)),
    (1, Do::ListFree(2), PLAIN, DONE),
    (1, Do::ListFree(0), PLAIN, DONE),
    (1, Do::ListFree(2), PLAIN, PANICKED),
    (1, Do::ListNew, PLAIN, Told::Number(2)),
    (1, Do::ListReset(2), PLAIN, DONE),
    (1, Do::ListReset(5), PLAIN, PANICKED),
    (1, Do::ListReset(0), PLAIN, PANICKED),
];

const WALK: &[Row] = &[
    (1, Do::ListNew, PLAIN, Told::Number(1)),
    (1, Do::ListStart(1, 2), PLAIN, NOT_FOUND),
    (1, Do::ListStart(1, 1), PLAIN, NOT_FOUND),
    (1, Do::ListStart(5, 1), PLAIN, PANICKED),
    (1, Do::ListStart(5, 2), PLAIN, PANICKED),
    (1, Do::ListNext(1), PLAIN, NOT_FOUND),
    (1, Do::ListNext(5), PLAIN, PANICKED),
    (1, Do::ListNext(0), PLAIN, PANICKED),
    (
        1,
        Do::Create(1, 3, b"ab", 0, b"123"),
        PLAIN,
        Told::Number(1),
    ),
    (1, Do::Create(1, 3, b"a", 0, b""), PLAIN, Told::Number(2)),
    (1, Do::ListStart(1, 1), PLAIN, DONE),
    (
        1,
        Do::ListNext(1),
        PLAIN,
        Told::Found(b"a", [DATA, EVERY, 0]),
    ),
    // the store as it now is
    (1, Do::Create(1, 3, b"aa", 0, b"1"), PLAIN, Told::Number(3)),
    (
        1,
        Do::ListNext(1),
        PLAIN,
        Told::Found(b"aa", [DATA, EVERY, 1]),
    ),
    (
        1,
        Do::ListNext(1),
        PLAIN,
        Told::Found(b"ab", [DATA, EVERY, 3]),
    ),
    (1, Do::ListNext(1), PLAIN, NOT_FOUND),
    (1, Do::Create(1, 3, b"b", 0, b""), PLAIN, Told::Number(4)),
    (
        1,
        Do::ListNext(1),
        PLAIN,
        Told::Found(b"b", [DATA, EVERY, 0]),
    ),
    // from the first again, and not started
    (1, Do::ListStart(1, 1), PLAIN, DONE),
    (
        1,
        Do::ListNext(1),
        PLAIN,
        Told::Found(b"a", [DATA, EVERY, 0]),
    ),
    (1, Do::ListReset(1), PLAIN, DONE),
    (1, Do::ListNext(1), PLAIN, NOT_FOUND),
    (2, Do::ListNext(1), PLAIN, PANICKED),
];

#[test]
fn each_ask_about_enumerators(rt: HostRuntime) -> Result<(), NoMemory> {
    run_tables(&rt, rt.alloc(), &[NUMBERS, WALK])
}
