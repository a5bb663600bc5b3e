//! Races over streams and boards that fail, and over boards that hold no volume.

use super::racing::{Asked, blank, race_on};
use boards::MemBoard;
use shared_tee::OpenGate;
use std::alloc::Global;
use std::process::Abort;
use std::sync::Wait;
use std::thread::Threads;
use tee_base::limits;

/// The board of a row.
#[derive(Clone, Copy)]
enum Over {
    Blank,
    /// One block too few.
    Small,
    /// Its first call fails.
    Failing,
}

/// A race, its board, the number of its status, and whether logs are written.
struct Row {
    asked: Asked<'static>,
    over: Over,
    number: u8,
    is_written: bool,
}

/// A race of a short script in which nothing fails.
const OPEN: Asked<'static> = Asked {
    word: "race",
    script: "keep open 1\n",
    reads: &[],
    writes: &[],
};

const ROWS: &[Row] = &[
    Row {
        asked: OPEN,
        over: Over::Blank,
        number: 0,
        is_written: true,
    },
    Row {
        asked: Asked {
            word: "run",
            ..OPEN
        },
        over: Over::Blank,
        number: 64,
        is_written: false,
    },
    Row {
        asked: Asked {
            script: "keep open 1\nkeep opn 2\n",
            ..OPEN
        },
        over: Over::Blank,
        number: 65,
        is_written: false,
    },
    Row {
        asked: OPEN,
        over: Over::Small,
        number: 67,
        is_written: false,
    },
    Row {
        asked: Asked {
            reads: &[1],
            ..OPEN
        },
        over: Over::Blank,
        number: 73,
        is_written: false,
    },
    Row {
        asked: Asked {
            writes: &[0],
            ..OPEN
        },
        over: Over::Blank,
        number: 74,
        is_written: false,
    },
    Row {
        asked: OPEN,
        over: Over::Failing,
        number: 75,
        is_written: false,
    },
];

/// The board of a row.
fn board_of(rt: &impl Abort, alloc: Global, over: Over) -> MemBoard {
    let blocks = match over {
        Over::Small => limits::BOARD_BLOCKS - 1,
        Over::Blank | Over::Failing => limits::BOARD_BLOCKS,
    };
    let mut board = blank(rt, alloc, blocks);
    if let Over::Failing = over {
        board.failing(&[0]).expect(rt, "a schedule");
    }
    board
}

/// Whether a race of the row ends as the row says.
fn ends<R: Threads + Wait + Sync + Abort>(rt: &R, alloc: Global, row: &Row) -> bool {
    let board = board_of(rt, alloc, row.over);
    let (number, written) = race_on(rt, alloc, row.asked, board, &OpenGate);
    number == row.number && written.is_empty() != row.is_written
}

#[test]
fn each_status_comes(rt: HostRuntime) {
    for row in ROWS {
        assert!(rt; ends(&rt, rt.alloc(), row));
    }
}
