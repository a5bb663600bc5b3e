//! The rows on shared memory: when the references of a call become bytes, and when bytes are delivered to them.

use super::player::{PLAIN, Play, Player};
use super::rows::KEPT;
use super::tables::{Do, Row, Table, check};
use app_api::Reference;
use tee_base::{Code, Origin};

const API: Origin = Origin::Api;

const TEE: Origin = Origin::Tee;

const APP: Origin = Origin::App;

const FINE: Code = Code::SUCCESS;

/// The block of all rows.
const BLOCK: Reference = Reference::Whole { block: 7 };

/// A block that nobody shares.
const NONE: Reference = Reference::Whole { block: 8 };

/// The last three bytes of it, to be taken.
const TAKEN: Reference = Reference::Part {
    block: 7,
    way: 1,
    at: 1,
    size: 3,
};

/// The same, to be given.
const GIVEN: Reference = Reference::Part {
    block: 7,
    way: 2,
    at: 1,
    size: 3,
};

/// Three bytes of which the last isn't there.
const PAST_THE_END: Reference = Reference::Part {
    block: 7,
    way: 1,
    at: 2,
    size: 3,
};

/// Ways that no flags have.
const NO_WAY: Reference = Reference::Part {
    block: 7,
    way: 0,
    at: 1,
    size: 3,
};

const FOURTH_WAY: Reference = Reference::Part {
    block: 7,
    way: 4,
    at: 1,
    size: 3,
};

/// An open on a new instance takes the bytes when its create entry has returned. Those of an inout stand there again after it,
/// where the entry gives no output. The block can't go meanwhile.
const TAKEN_AT_START: &[Row] = &[
    (Do::Share(7, 3, 4), &[(1, FINE, API)]),
    (Do::OpenWith(1, BLOCK, None), &[]),
    (Do::Turns(1), &[]),
    (Do::Fill(7, b"late"), &[(3, FINE, API)]),
    (Do::Unshare(7), &[(4, Code::BUSY, API)]),
    (Do::Turns(2), &[]),
    (Do::Fill(7, b"lost"), &[(5, FINE, API)]),
    (Do::Shows(7, b"lost"), &[(6, FINE, API)]),
    (Do::Turns(2), &[(2, FINE, APP)]),
    (Do::Shows(7, b"late"), &[(7, FINE, API)]),
    (Do::Unshare(7), &[(8, FINE, API)]),
    (Do::Unshare(7), &[(9, Code::ITEM_NOT_FOUND, API)]),
];

/// What a start entry gave that fails is delivered, before its destroy entry.
const GIVEN_BY_A_FAILURE: &[Row] = &[
    (Do::Share(7, 3, 4), &[(1, FINE, API)]),
    (Do::OpenWith(1, GIVEN, None), &[]),
    (Do::Turns(5), &[]),
    (Do::Shows(7, b"\0xy\0"), &[(3, FINE, API)]),
    (Do::Unshare(7), &[(4, Code::BUSY, API)]),
    (Do::Turns(2), &[(2, Code::GENERIC, APP)]),
    (Do::Unshare(7), &[(5, FINE, API)]),
    (Do::Share(7, 1, 4), &[(6, FINE, API)]),
];

/// An entry that is torn down delivers nothing, and its block stays.
const TORN_DOWN: &[Row] = &[
    (Do::Share(7, 3, 4), &[(1, FINE, API)]),
    (Do::Open(1), &[]),
    (Do::Turns(5), &[(2, FINE, APP)]),
    (Do::InvokeWith(1, BLOCK, None), &[]),
    (Do::Turns(2), &[]),
    (Do::Fill(7, b"kept"), &[(4, FINE, API)]),
    (Do::Starve, &[(3, Code::OUT_OF_MEMORY, TEE)]),
    (Do::Shows(7, b"kept"), &[(5, FINE, API)]),
];

/// The turn finds no memory in which create returns and the bytes are to be taken.
const NO_MEMORY: &[Row] = &[
    (Do::Share(7, 3, 4), &[(1, FINE, API)]),
    (Do::OpenWith(1, BLOCK, None), &[]),
    (Do::Turns(2), &[]),
    (Do::Starve, &[(2, Code::OUT_OF_MEMORY, TEE)]),
    (Do::Live(0), &[]),
    (Do::Unshare(7), &[(3, FINE, API)]),
];

/// It stays when the power comes back.
const POWER_BACK: &[Row] = &[
    (Do::Shows(7, b"kept"), &[(6, FINE, API)]),
    (Do::Share(7, 3, 4), &[(7, Code::BAD_STATE, API)]),
];

/// Of two faults in one call a missing block is told first.
const REFUSED: &[Row] = &[
    (Do::Share(7, 1, 4), &[(1, FINE, API)]),
    (
        Do::OpenWith(1, PAST_THE_END, None),
        &[(2, Code::BAD_PARAMETERS, API)],
    ),
    (
        Do::OpenWith(1, GIVEN, None),
        &[(3, Code::BAD_PARAMETERS, API)],
    ),
    (
        Do::OpenWith(1, NO_WAY, None),
        &[(4, Code::BAD_PARAMETERS, API)],
    ),
    (
        Do::OpenWith(1, FOURTH_WAY, None),
        &[(5, Code::BAD_PARAMETERS, API)],
    ),
    (
        Do::OpenWith(1, FOURTH_WAY, Some(NONE)),
        &[(6, Code::ITEM_NOT_FOUND, API)],
    ),
    (
        Do::InvokeWith(1, NO_WAY, Some(NONE)),
        &[(7, Code::ITEM_NOT_FOUND, API)],
    ),
    (Do::InvokeWith(1, TAKEN, None), &[(8, Code::BAD_STATE, API)]),
];

const TABLES: &[Table] = &[
    Table {
        before: TAKEN_AT_START,
        turns: 5,
        ..KEPT
    },
    Table {
        player: Player {
            second: Play::Give(Code::GENERIC),
            ..PLAIN
        },
        keep: false,
        before: GIVEN_BY_A_FAILURE,
        turns: 7,
        ..KEPT
    },
    Table {
        before: NO_MEMORY,
        turns: 3,
        ..KEPT
    },
    Table {
        before: TORN_DOWN,
        turns: 8,
        after: POWER_BACK,
        ..KEPT
    },
    Table {
        before: REFUSED,
        ..KEPT
    },
];

#[test]
fn blocks_are_told(rt: HostRuntime) {
    for table in TABLES {
        check(&rt, rt.alloc(), table);
    }
}
