//! Rows of calls on a board, and what has to come of each.

use board::Board;
use std::process::Abort;

/// A call, and what has to come of it.
#[derive(Clone, Copy)]
pub enum Row {
    /// The block is filled with this byte. It passes, or is interrupted.
    Fill(u64, u8, bool),
    /// Each byte of the block is this one.
    Filled(u64, u8),
    /// The block's first and last byte, if the read passes.
    Ends(u64, Option<(u8, u8)>),
    /// It passes, or is interrupted.
    Sync(bool),
    /// What is told, if it passes.
    Counter(Option<u64>),
    /// The same.
    Advance(Option<u64>),
    Fuse(u32),
    Power(u64),
    Blocks(u64),
    /// Each byte of the key is this one.
    Key(u8),
    Faults(u64),
    Writes(u64),
    /// How many orders there were, and the sum of their numbers.
    Orders(u64, u64),
}

/// Whether it passes.
fn fill<B: Board>(rt: &impl Abort, board: &mut B, block: u64, byte: u8) -> bool {
    assert!(rt; block < board.blocks());
    board.write(block, &[byte; 1024]).is_ok()
}

/// The block's first and last byte.
fn ends<B: Board>(rt: &impl Abort, board: &mut B, block: u64) -> Option<(u8, u8)> {
    assert!(rt; block < board.blocks());
    let mut bytes = [0; 1024];
    if board.read(block, &mut bytes).is_err() {
        return None;
    }
    Some((bytes[0], bytes[1023]))
}

/// Whether each byte of the block is this one.
fn is_filled<B: Board>(rt: &impl Abort, board: &mut B, block: u64, byte: u8) -> bool {
    assert!(rt; block < board.blocks());
    let mut bytes = [9; 1024];
    board.read(block, &mut bytes).is_ok() && bytes == [byte; 1024]
}

/// Whether what the board tells without a call is what the row wants.
fn is_told<B: Board>(board: &B, row: &Row) -> bool {
    match row {
        Row::Blocks(blocks) => board.blocks() == *blocks,
        Row::Key(byte) => board.key() == [*byte; 32],
        Row::Faults(faults) => board.faults() == *faults,
        Row::Writes(writes) => board.writes() == *writes,
        Row::Orders(orders, ordered) => board.orders() == *orders && board.ordered() == *ordered,
        _ => false,
    }
}

/// Makes the call of a row, and says whether that came of it which has to.
fn is_met<B: Board>(rt: &impl Abort, board: &mut B, row: &Row) -> bool {
    match row {
        Row::Fill(block, byte, passes) => fill(rt, board, *block, *byte) == *passes,
        Row::Filled(block, byte) => is_filled(rt, board, *block, *byte),
        Row::Ends(block, wanted) => ends(rt, board, *block) == *wanted,
        Row::Sync(passes) => board.sync().is_ok() == *passes,
        Row::Counter(wanted) => board.counter().ok() == *wanted,
        Row::Advance(wanted) => board.advance().ok() == *wanted,
        Row::Fuse(calls) => {
            board.fuse(*calls);
            true
        }
        Row::Power(pick) => {
            board.power(*pick);
            true
        }
        _ => is_told(board, row),
    }
}

/// Makes the calls in order. The number says which of a test's cases they are.
pub fn go_through<B: Board>(rt: &impl Abort, board: &mut B, number: u64, rows: &[Row]) {
    for (place, row) in rows.iter().enumerate() {
        let holds = is_met(rt, board, row);
        assert!(rt; holds, "row {place} at {number}");
    }
}
