//! The rows: entries that fail, cancellation as an entry begins, instances that end from outside, and damage.

use super::player::{PLAIN, Play, Player};
use super::tables::{Do, Row, Table, begun, check, run};
use app_side::TurnKind;
use std::alloc::Global;
use std::process::Abort;
use tee_base::{Code, Origin};
use test_damaged_store::{Damaged, Meets};

const API: Origin = Origin::Api;

const TEE: Origin = Origin::Tee;

const APP: Origin = Origin::App;

/// The answer of a call or an entry that succeeds.
const FINE: Code = Code::SUCCESS;

const DONE: Play = Play::Return(FINE);

const FAILS: Play = Play::Return(Code::GENERIC);

/// What was told is the number of a user's login.
const USER: Play = Play::Expect(Code(1));

/// Two sessions of an instance whose create entry fails. Each of two clients may use the same label.
const CREATE_FAILS: &[Row] = &[
    (Do::Open(1), &[]),
    (Do::OpenFor(1, 1), &[]),
    (Do::OpenFor(1, 1), &[(3, Code::BAD_STATE, API)]),
    (
        Do::Turns(3),
        &[(1, Code::GENERIC, APP), (2, Code::GENERIC, APP)],
    ),
    (Do::Live(0), &[]),
    (Do::Turns(1), &[]),
    (Do::Invoke(1), &[(4, Code::BAD_STATE, API)]),
    (Do::Open(1), &[]),
];

/// Destroy comes before the reply where no other session is left.
const START_FAILS: &[Row] = &[
    (Do::Open(1), &[]),
    (Do::Turns(5), &[]),
    (Do::Open(2), &[(2, Code::BUSY, TEE)]),
    (Do::Turns(2), &[(1, Code::GENERIC, APP)]),
    (Do::Live(0), &[]),
    (Do::Open(1), &[]),
];

/// The session of the second start is gone, and the first one stays.
const SECOND_START_FAILS: &[Row] = &[
    (Do::Open(1), &[]),
    (Do::Turns(5), &[(1, FINE, APP)]),
    (Do::Open(2), &[]),
    (Do::Turns(3), &[(2, Code::GENERIC, APP)]),
    (Do::Live(1), &[]),
    (Do::Invoke(2), &[(3, Code::BAD_STATE, API)]),
    (Do::Invoke(1), &[]),
    (Do::Turns(3), &[(4, FINE, APP)]),
];

/// The codes of stop and of destroy are ignored.
const ENDS_FAIL: &[Row] = &[
    (Do::Open(1), &[]),
    (Do::Turns(5), &[(1, FINE, APP)]),
    (Do::Close(1), &[]),
    (Do::Turns(5), &[(2, FINE, APP)]),
    (Do::Live(0), &[]),
];

/// Create unmasks and reads the flag. Start, which begins masked, doesn't read of the cancellation.
const MASKED_AGAIN: &[Row] = &[
    (Do::Open(1), &[]),
    (Do::TurnWithoutStore, &[]),
    (Do::Turns(6), &[]),
    (Do::Cancel(1), &[]),
    (Do::Turns(4), &[(1, FINE, APP)]),
];

/// An open that runs and unmasks is not answered at once, and reads of its cancellation.
const OPEN_IS_CANCELLED: &[Row] = &[
    (Do::Open(1), &[]),
    (Do::Turns(1), &[]),
    (Do::Cancel(1), &[]),
    (Do::Turns(8), &[(1, Code::CANCEL, APP)]),
    (Do::Invoke(1), &[(2, Code::BAD_STATE, API)]),
];

/// The answer to a mask is the mask before, which is shown as CANCEL.
const MASKS: &[Row] = &[
    (Do::Open(1), &[]),
    (Do::Turns(5), &[(1, FINE, APP)]),
    (Do::Invoke(1), &[]),
    (Do::Turns(5), &[(2, Code::CANCEL, APP)]),
];

/// Create and start know the client that opens the session.
const WHO_OPENS: &[Row] = &[
    (Do::OpenUser(1, 1000), &[]),
    (Do::Turns(9), &[(1, FINE, APP)]),
    (Do::OpenGroup(2, 100), &[]),
    (Do::Turns(5), &[(2, FINE, APP)]),
];

/// Each session keeps its client's login.
const WHO_INVOKES: &[Row] = &[
    (Do::OpenUser(1, 1000), &[]),
    (Do::Turns(5), &[(1, FINE, APP)]),
    (Do::OpenGroup(2, 100), &[]),
    (Do::Turns(3), &[(2, FINE, APP)]),
    (Do::Invoke(1), &[]),
    (Do::Turns(5), &[(3, FINE, APP)]),
];

/// Stop still knows the client, and destroy knows none.
const WHO_CLOSES: &[Row] = &[
    (Do::OpenUser(1, 1000), &[]),
    (Do::Turns(5), &[(1, FINE, APP)]),
    (Do::Close(1), &[]),
    (Do::Turns(9), &[(2, FINE, APP)]),
    (Do::Live(0), &[]),
];

/// A turn without memory, and an instance that is torn down: dead sessions stay.
const TORN_DOWN: &[Row] = &[
    (Do::Open(1), &[]),
    (Do::Turns(5), &[(1, FINE, APP)]),
    (Do::Open(2), &[]),
    (Do::Turns(3), &[(2, FINE, APP)]),
    (Do::Invoke(1), &[]),
    (Do::Close(2), &[]),
    (
        Do::Starve,
        &[(3, Code::OUT_OF_MEMORY, TEE), (4, Code::OUT_OF_MEMORY, TEE)],
    ),
    (Do::Live(0), &[]),
    (Do::Invoke(2), &[(5, Code::BAD_STATE, API)]),
    (Do::Invoke(1), &[(6, Code::TARGET_DEAD, TEE)]),
    (Do::Open(3), &[]),
    (Do::Turns(5), &[(7, FINE, APP)]),
    (Do::Teardown(Code::TARGET_DEAD), &[]),
    (Do::Invoke(1), &[(8, Code::TARGET_DEAD, TEE)]),
    (Do::Invoke(3), &[(9, Code::TARGET_DEAD, TEE)]),
    (Do::Open(4), &[]),
    (Do::Teardown(Code::GENERIC), &[(10, Code::GENERIC, TEE)]),
    (Do::Close(4), &[(11, Code::BAD_STATE, API)]),
];

/// A change in doubt, and two operations that wait.
const LOST: &[Row] = &[
    (Do::Open(1), &[]),
    (Do::Turns(5), &[(1, FINE, APP)]),
    (Do::Invoke(1), &[]),
    (Do::Turns(2), &[]),
    (Do::NeedsStore, &[]),
    (Do::Turn(TurnKind::Lost { change: true }), &[]),
    (Do::Turns(2), &[(2, Code::STORAGE_NOT_AVAILABLE, APP)]),
    (Do::Invoke(1), &[]),
    (Do::Open(2), &[]),
];

/// The power came back: numbers go on, and nothing is answered.
const RESTARTED: &[Row] = &[
    (Do::Live(0), &[]),
    (Do::Turns(1), &[]),
    (Do::Cancel(3), &[]),
    (Do::Invoke(1), &[(5, Code::BAD_STATE, API)]),
    (Do::Open(1), &[]),
    (Do::Turns(5), &[(6, FINE, APP)]),
    (Do::Invoke(1), &[]),
    (Do::Turns(5), &[(7, FINE, APP)]),
];

/// An application that is kept, of which nothing is left once the power came back.
pub const KEPT: Table = Table {
    player: PLAIN,
    keep: true,
    failing: &[],
    before: &[],
    turns: 0,
    took: false,
    after: &[(Do::Live(0), &[])],
};

const LOSING: Table = Table {
    player: Player {
        third: Play::Create,
        fourth: Play::Told,
        ..PLAIN
    },
    failing: &[0],
    before: LOST,
    turns: 10,
    after: RESTARTED,
    ..KEPT
};

const TABLES: &[Table] = &[
    Table {
        player: Player {
            first: FAILS,
            ..PLAIN
        },
        before: CREATE_FAILS,
        turns: 4,
        ..KEPT
    },
    Table {
        player: Player {
            second: FAILS,
            ..PLAIN
        },
        keep: false,
        before: START_FAILS,
        turns: 7,
        ..KEPT
    },
    Table {
        player: Player {
            third: FAILS,
            ..PLAIN
        },
        before: SECOND_START_FAILS,
        turns: 11,
        ..KEPT
    },
    Table {
        player: Player {
            third: FAILS,
            fourth: FAILS,
            ..PLAIN
        },
        keep: false,
        before: ENDS_FAIL,
        turns: 10,
        ..KEPT
    },
    Table {
        player: Player {
            first: Play::Unmask,
            second: Play::Flag,
            fourth: Play::Flag,
            fifth: Play::Told,
            ..PLAIN
        },
        before: MASKED_AGAIN,
        turns: 11,
        ..KEPT
    },
    Table {
        player: Player {
            second: Play::Unmask,
            third: Play::Flag,
            fourth: Play::Told,
            ..PLAIN
        },
        before: OPEN_IS_CANCELLED,
        turns: 9,
        ..KEPT
    },
    Table {
        player: Player {
            third: Play::Mask,
            fourth: Play::Told,
            ..PLAIN
        },
        before: MASKS,
        turns: 10,
        ..KEPT
    },
    Table {
        player: Player {
            first: Play::Who,
            second: USER,
            third: Play::Who,
            fourth: USER,
            fifth: Play::Who,
            sixth: Play::Expect(Code(2)),
        },
        before: WHO_OPENS,
        turns: 14,
        ..KEPT
    },
    Table {
        player: Player {
            fourth: Play::Who,
            fifth: USER,
            ..PLAIN
        },
        before: WHO_INVOKES,
        turns: 13,
        ..KEPT
    },
    Table {
        player: Player {
            third: Play::Who,
            fourth: USER,
            fifth: Play::Who,
            sixth: Play::Expect(Code::ITEM_NOT_FOUND),
            ..PLAIN
        },
        keep: false,
        before: WHO_CLOSES,
        turns: 14,
        ..KEPT
    },
    Table {
        before: TORN_DOWN,
        turns: 14,
        ..KEPT
    },
    LOSING,
    Table {
        took: true,
        ..LOSING
    },
];

#[test]
fn events_are_told(rt: HostRuntime) {
    for table in TABLES {
        check(&rt, rt.alloc(), table);
    }
}

const DAMAGED: Do = Do::Turn(TurnKind::Corrupted);

/// A change and a look that meet damage.
const CORRUPT: &[Row] = &[
    (Do::Open(1), &[]),
    (Do::Turns(5), &[(1, FINE, APP)]),
    (Do::Invoke(1), &[]),
    (Do::Turns(2), &[]),
    (DAMAGED, &[]),
    (Do::Turns(2), &[(2, Code::CORRUPT_OBJECT, APP)]),
    (Do::Invoke(1), &[]),
    (Do::Turns(2), &[]),
    (DAMAGED, &[]),
    (Do::Turns(2), &[(3, Code::CORRUPT_OBJECT, APP)]),
];

/// Both, and a look that finds nothing: the storage is there.
const NOT_LOST: &[Row] = &[
    (Do::Open(1), &[]),
    (Do::Turns(5), &[(1, FINE, APP)]),
    (Do::Invoke(1), &[]),
    (Do::Turns(2), &[]),
    (DAMAGED, &[]),
    (Do::Turns(1), &[]),
    (DAMAGED, &[]),
    (Do::Turns(4), &[(2, Code::ITEM_NOT_FOUND, APP)]),
];

/// The rows over a store whose first two calls meet damage.
fn check_damaged(rt: &impl Abort, alloc: Global, player: Player, rows: &[Row]) {
    let mut store = Damaged::new(Some(Meets::OtherTag), Some(Meets::BrokenRule), None);
    let mut side = begun(rt, alloc, player, true);
    run(rt, alloc, &mut side, &mut store, rows);
    drop(side);
    drop(store);
}

#[test]
fn damage_is_told_and_loses_nothing(rt: HostRuntime) {
    let change_and_look = Player {
        third: Play::Create,
        fourth: Play::Told,
        fifth: Play::Open,
        sixth: Play::Told,
        ..PLAIN
    };
    let two_looks_more = Player {
        third: Play::Create,
        fourth: Play::Open,
        fifth: Play::Open,
        sixth: Play::Told,
        ..PLAIN
    };
    check_damaged(&rt, rt.alloc(), change_and_look, CORRUPT);
    check_damaged(&rt, rt.alloc(), two_looks_more, NOT_LOST);
}
