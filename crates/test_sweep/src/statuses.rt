//! How each status is told.

use epoch::OpenAnswer;
use std::alloc::Global;
use std::process::Abort;
use store_api::Mismatch;
use tee_base::Bytes;
use tee_top::{Status, status_line};

/// A status, its number and its text.
struct Row {
    status: Status,
    number: u8,
    told: &'static str,
}

/// The application of a full log is the second of two.
const ROWS: &[Row] = &[
    Row {
        status: Status::Done,
        number: 0,
        told: "",
    },
    Row {
        status: Status::BadWords,
        number: 64,
        told: "teectl: usage: teectl run [IMAGE] | race | gen N\n",
    },
    Row {
        status: Status::BadLine(2),
        number: 65,
        told: "teectl: line 2 is not a script line\n",
    },
    Row {
        status: Status::TooLong,
        number: 66,
        told: "teectl: script too long\n",
    },
    Row {
        status: Status::LogFull(1),
        number: 68,
        told: "teectl: log of twin is full\n",
    },
    Row {
        status: Status::NoMemory,
        number: 71,
        told: "teectl: out of memory\n",
    },
    Row {
        status: Status::ReadFault,
        number: 73,
        told: "teectl: cannot read\n",
    },
    Row {
        status: Status::WriteFault,
        number: 74,
        told: "teectl: cannot write\n",
    },
    Row {
        status: Status::BoardFault,
        number: 75,
        told: "teectl: board failed\n",
    },
];

/// Why a store is refused, and the text of it.
const REFUSALS: &[(OpenAnswer, &str)] = &[
    (
        OpenAnswer::TooSmall(8_741),
        "teectl: store refused: too small 8741\n",
    ),
    (
        OpenAnswer::NoVolume(3),
        "teectl: store refused: no volume at counter 3\n",
    ),
    (
        OpenAnswer::BadHeader {
            slot: 1,
            found: [1; 32],
            kept: [2; 32],
        },
        "teectl: store refused: bad header 1\n",
    ),
    (
        OpenAnswer::UnknownVersion(9),
        "teectl: store refused: unknown version 9\n",
    ),
    (
        OpenAnswer::Rollback {
            sequence: 5,
            counter: 6,
        },
        "teectl: store refused: rollback 5 6\n",
    ),
    (
        OpenAnswer::Ahead {
            sequence: 7,
            counter: 5,
        },
        "teectl: store refused: ahead 7 5\n",
    ),
    (
        OpenAnswer::OldMismatch(TAGS),
        "teectl: store refused: old volume mismatch\n",
    ),
    (
        OpenAnswer::OldGarbled {
            region: 15,
            leaf: 255,
        },
        "teectl: store refused: old region 15 garbled at 255\n",
    ),
];

/// Two tags that differ.
const TAGS: Mismatch = Mismatch {
    found: [1; 32],
    kept: [2; 32],
};

/// Whether the status has this number and this text, for two applications.
fn is_told(rt: &impl Abort, alloc: Global, status: &Status, number: u8, told: &str) -> bool {
    let names = [
        Bytes::from_slice(alloc, b"vault").expect(rt, "a name"),
        Bytes::from_slice(alloc, b"twin").expect(rt, "a name"),
    ];
    let names = names.as_slice();
    if let Status::LogFull(app) = status {
        assert!(rt; usize::from(*app) < names.len());
    }
    let line = status_line(alloc, status, names).expect(rt, "a line");
    status.number() == number && line.as_slice() == told.as_bytes()
}

#[test]
fn statuses_have_numbers_and_texts(rt: HostRuntime) {
    for row in ROWS {
        assert!(rt; is_told(&rt, rt.alloc(), &row.status, row.number, row.told));
    }
}

#[test]
fn refusals_have_texts(rt: HostRuntime) {
    for (why, told) in REFUSALS {
        assert!(rt; is_told(&rt, rt.alloc(), &Status::StoreRefused(*why), 67, told));
    }
}
