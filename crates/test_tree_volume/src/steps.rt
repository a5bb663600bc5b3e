//! Rows of calls on a volume over a board in memory, and what has to come of each.

ghost use Rattle.std.specs.Prelude.{◌≡◌, ◌<◌, ◌≤◌, IfOk, IsTrue};
ghost use Rattle.tee_base.specs.declared.limits.TheConstants.{LEAVES};
ghost use Rattle.store_api.specs.Ascending.{is_above_all};
ghost use Rattle.test_tree_volume.specs.declared.filling.TheConstants.{MOST};

use crate::filling::{MOST, OLD, byte_at, number_of};
use boards::MemBoard;
use epoch::{BoardVolume, OpenAnswer, Reopened};
use std::alloc::Global;
use std::process::Abort;
use std::test::Fail;
use store_api::{Leaf, LeafAnswer, Leaves, Volume};
use tee_base::NoMemory;
use tree_volume::{TreeVolume, VerifyAnswer};

/// A call, and what has to come of it. The leaves are those of region 2 that `number_of` numbers, but where a row names
/// another.
#[derive(Clone, Copy)]
pub enum Row {
    /// All leaves are filled with this byte, and a neighbour with zeros.
    Filled(u8),
    /// So many leaves are replaced by such filled with this byte, which is answered so.
    Replace(u16, u8, Result<u64, LeafAnswer>),
    /// Leaf 5 of region 0 is replaced by one filled with this byte, to this sequence.
    ReplaceOne(u8, u64),
    /// All places are verified, which is answered so.
    Verify(Result<u32, VerifyAnswer>),
    /// The volume is at this sequence.
    Sequence(u64),
    /// The volume is lost.
    Lost,
    /// The board fails after so many further calls.
    Fuse(u32),
    /// The volume is opened again, at this sequence.
    Reopen(u64),
    /// The power is lost by this number, and the volume is opened at this sequence.
    Power(u64, u64),
    /// The power is lost by this number.
    AnyPower(u64),
    /// So many leaves are filled as the sequence wants it, the others are the old ones, and the next commit is found.
    GoOn(u16),
}

/// A volume over a board in memory.
pub type OnBoard = TreeVolume<MemBoard>;

/// Whether all leaves have numbers below this one.
fn are_below(leaves: &Leaves, number: u16) -> bool
    ensures { result ≡ is_above_all leaves.now number }
{
    leaves.as_slice().iter().all(|leaf| leaf.number < number)
}

/// So many leaves, each filled with a byte.
fn leaves_of(rt: &impl Abort, alloc: Global, count: u16, byte: u8) -> Result<Leaves, NoMemory>
    requires { count ≤ MOST }
    ensures { IfOk result (λ leaves. IsTrue (is_above_all leaves LEAVES)) }
{
    let mut leaves = Leaves::none(alloc);
    for index in 0..count {
        let number = number_of(index);
        assert!(rt; are_below(&leaves, number));
        let bytes = [byte; 1024];
        leaves.push(Leaf { number, bytes })?;
    }
    assert!(rt; are_below(&leaves, 1024));
    Ok(leaves)
}

/// Replaces so many leaves by such filled with a byte, and compares the answer.
fn is_replaced(
    rt: &impl Abort,
    alloc: Global,
    volume: &mut OnBoard,
    count: u16,
    byte: u8,
    want: &Result<u64, LeafAnswer>,
) -> Result<bool, NoMemory> {
    let leaves = leaves_of(rt, alloc, count.min(MOST), byte)?;
    let answer = volume.commit(2, &leaves);
    drop(leaves);
    Ok(answer == *want)
}

/// Replaces leaf 5 of region 0 by one filled with a byte, and compares the sequence.
fn is_one_replaced(
    rt: &impl Abort,
    alloc: Global,
    volume: &mut OnBoard,
    byte: u8,
    sequence: u64,
) -> Result<bool, NoMemory> {
    let leaves = leaves_of(rt, alloc, 1, byte)?;
    let answer = volume.commit(0, &leaves);
    drop(leaves);
    Ok(answer == Ok(sequence))
}

/// Whether a leaf of region 2 is filled with a byte.
fn is_leaf(volume: &mut OnBoard, leaf: u16, byte: u8) -> bool
    requires { leaf < LEAVES }
{
    let mut bytes = [1; 1024];
    volume.read_leaf(2, leaf, &mut bytes) == Ok(()) && bytes == [byte; 1024]
}

/// Whether so many leaves are filled with a byte, the others are the old ones, and a neighbour is zeros.
fn is_filled(volume: &mut OnBoard, count: u16, byte: u8) -> bool {
    for index in 0..MOST {
        let wanted = if index < count { byte } else { OLD };
        if !is_leaf(volume, number_of(index), wanted) {
            return false;
        }
    }
    is_leaf(volume, 6, 0)
}

/// The leaves are the old or the new ones at the sequence, and the next commit is found.
fn goes_on(
    rt: &impl Abort,
    alloc: Global,
    volume: &mut OnBoard,
    count: u16,
) -> Result<bool, NoMemory> {
    let sequence = volume.sequence();
    let is_whole = is_filled(volume, count, byte_at(sequence));
    let next = sequence.wrapping_add(1);
    let is_next = is_replaced(rt, alloc, volume, count, 0x44, &Ok(next))?;
    Ok(is_whole && is_next && is_filled(volume, count, 0x44))
}

/// Makes the call of a row, and says whether that came of it which has to.
fn is_met(
    rt: &impl Abort,
    alloc: Global,
    volume: &mut OnBoard,
    row: &Row,
) -> Result<bool, NoMemory> {
    Ok(match row {
        Row::Filled(byte) => is_filled(volume, MOST, *byte),
        Row::Replace(count, byte, want) => is_replaced(rt, alloc, volume, *count, *byte, want)?,
        Row::ReplaceOne(byte, sequence) => is_one_replaced(rt, alloc, volume, *byte, *sequence)?,
        Row::Verify(want) => volume.verify() == *want,
        Row::Sequence(sequence) => volume.sequence() == *sequence,
        Row::Lost => volume.is_lost(),
        Row::Fuse(calls) => {
            volume.fuse(*calls);
            true
        }
        Row::Reopen(sequence) => is_found(volume.reopen(), *sequence),
        Row::Power(pick, sequence) => is_found(volume.power(*pick), *sequence),
        Row::AnyPower(pick) => match volume.power(*pick) {
            Ok(told) => told.sequence == volume.sequence() && !told.rewritten,
            Err(_) => false,
        },
        Row::GoOn(count) => goes_on(rt, alloc, volume, *count)?,
    })
}

/// Whether a volume of the version that is written was found at this sequence.
fn is_found(told: Result<Reopened, OpenAnswer>, sequence: u64) -> bool {
    told == Ok(Reopened {
        sequence,
        rewritten: false,
    })
}

/// Makes the calls in order.
fn go_through(
    rt: &impl Abort,
    alloc: Global,
    volume: &mut OnBoard,
    rows: &[Row],
) -> Result<(), NoMemory> {
    for (place, row) in rows.iter().enumerate() {
        assert!(rt; is_met(rt, alloc, volume, row)?, "row {place}");
    }
    Ok(())
}

/// The volume of a board.
pub fn opened(alloc: Global, board: MemBoard) -> Result<OnBoard, OpenAnswer> {
    match TreeVolume::open(alloc, board) {
        Ok(volume) => Ok(volume),
        Err(unopened) => {
            let why = unopened.why;
            drop(unopened);
            Err(why)
        }
    }
}

/// Makes the calls in order on the volume of a board, and gives the board back.
pub fn run(
    rt: &impl Abort,
    alloc: Global,
    board: MemBoard,
    rows: &[Row],
) -> Result<MemBoard, Fail> {
    let mut volume = opened(alloc, board)?;
    go_through(rt, alloc, &mut volume, rows)?;
    Ok(volume.into_board())
}
