//! One cell that two seats share, in one thread and in two.

ghost use Rattle.std.specs.Prelude.{◌≡◌, ◌<◌, IfOk, length};
ghost use Rattle.turn_cell.specs.Words.{view, IsFree, IsSeatOf, original_parts};

use crate::tally::Tally;
use std::alloc::Global;
use std::process::Abort;
use std::sync::Wait;
use std::test::Fail;
use std::thread::join;
use turn_cell::{Busy, CellSeat, NoMemory, Parted, TurnCell};

const TURNS: u32 = 1000;

fn empty(alloc: Global) -> Tally {
    Tally {
        first: 0,
        second: 0,
        counted: Vec::new(alloc),
    }
}

/// A cell named 7 with its first seat, which owns part 0, and another, which owns part 1.
fn two_seats(alloc: Global) -> Result<(TurnCell<Tally>, CellSeat<Tally>, CellSeat<Tally>), NoMemory>
    ensures cell { IfOk result (λ made.
        length (original_parts ⟦<Tally as Parted>⟧.parts_of made.0) ≡ 2) }
    ensures own { IfOk result (λ made. IsSeatOf made.0 made.1 × IsSeatOf made.0 made.2) }
    ensures free { IfOk result (λ made. IsFree made.1 × IsFree made.2) }
    ensures first { IfOk result (λ made.
        ((view made.1).first ≡ 0) × (length (view made.1).own ≡ 1)) }
    ensures second { IfOk result (λ made.
        ((view made.2).first ≡ 1) × (length (view made.2).own ≡ 1)) }
{
    match TurnCell::new(alloc, empty(alloc), 7) {
        Ok((cell, mut first)) => {
            let second = cell.split(&mut first, 1);
            Ok((cell, first, second))
        }
        Err(refused) => Err(refused.why),
    }
}

/// Whether a try is in vain while the first seat has the value, and finds who has it.
fn tries_in_vain(cell: &TurnCell<Tally>, seat: &mut CellSeat<Tally>) -> bool
    requires own { IsSeatOf cell.now seat.old }
    requires free { IsFree seat.old }
    ensures own { IsSeatOf cell.now seat.new }
    ensures free { IsFree seat.new }
    ensures first { (view seat.new).first ≡ (view seat.old).first }
    ensures size { length (view seat.new).own ≡ length (view seat.old).own }
{
    match cell.try_take(seat) {
        Ok(tally) => {
            cell.give(seat, tally);
            false
        }
        Err(busy) => busy == Busy { cell: 7, word: 1 } && cell.word(seat) == 1,
    }
}

/// The first seat takes the value, the other tries in vain, and the first gives it back.
fn tries_while_out<R: Wait>(
    rt: &R,
    cell: &TurnCell<Tally>,
    first: &mut CellSeat<Tally>,
    other: &mut CellSeat<Tally>,
) -> bool
    requires own { IsSeatOf cell.now first.old × IsSeatOf cell.now other.old }
    requires free { IsFree first.old × IsFree other.old }
    ensures own { IsSeatOf cell.now first.new × IsSeatOf cell.now other.new }
    ensures free { IsFree first.new × IsFree other.new }
    ensures first { ((view first.new).first ≡ (view first.old).first)
        × (length (view first.new).own ≡ length (view first.old).own) }
    ensures other { ((view other.new).first ≡ (view other.old).first)
        × (length (view other.new).own ≡ length (view other.old).own) }
{
    let tally = cell.take(rt, first);
    let in_vain = tries_in_vain(cell, other);
    cell.give(first, tally);
    in_vain
}

/// The seat that owns part 1 takes the value in one try, counts, and gives it back. The first seat sees who has it.
fn counts_by_a_try(
    cell: &TurnCell<Tally>,
    first: &mut CellSeat<Tally>,
    seat: &mut CellSeat<Tally>,
) -> bool
    requires own { IsSeatOf cell.now first.old × IsSeatOf cell.now seat.old }
    requires free { IsFree first.old × IsFree seat.old }
    requires part { ((view seat.old).first ≡ 1) × (length (view seat.old).own ≡ 1) }
    ensures own { IsSeatOf cell.now first.new × IsSeatOf cell.now seat.new }
    ensures free { IsFree first.new × IsFree seat.new }
    ensures first { ((view first.new).first ≡ (view first.old).first)
        × (length (view first.new).own ≡ length (view first.old).own) }
    ensures part { ((view seat.new).first ≡ 1) × (length (view seat.new).own ≡ 1) }
{
    match cell.try_take(seat) {
        Ok(mut tally) => {
            let word = cell.word(first);
            tally.count(1);
            cell.give(seat, tally);
            word == 2
        }
        Err(_) => false,
    }
}

/// Brings the second part back to the first seat, and ends the cell.
fn close(cell: TurnCell<Tally>, first: CellSeat<Tally>, second: CellSeat<Tally>) -> Tally
    requires cell { length (original_parts ⟦<Tally as Parted>⟧.parts_of cell) ≡ 2 }
    requires own { IsSeatOf cell first × IsSeatOf cell second }
    requires free { IsFree first × IsFree second }
    requires first { ((view first).first ≡ 0) × (length (view first).own ≡ 1) }
    requires second { ((view second).first ≡ 1) × (length (view second).own ≡ 1) }
{
    let mut first = first;
    cell.join(&mut first, second);
    cell.close(first)
}

#[test]
fn a_try_finds_who_has_the_value(rt: HostRuntime) -> Result<(), Fail> {
    let (cell, mut first, mut second) = two_seats(rt.alloc())?;
    let in_vain = tries_while_out(&rt, &cell, &mut first, &mut second);
    let counted = counts_by_a_try(&cell, &mut first, &mut second);
    let tally = close(cell, first, second);
    let last = tally.second == 1 && tally.first == 0 && tally.counted.as_slice() == [1].as_slice();
    drop(tally);
    assert!(rt; in_vain, "the first seat has the value");
    assert!(rt; counted, "the value is in the cell");
    assert!(rt; last);
    Ok(())
}

/// Takes as many turns, and counts in each.
fn count_often<R: Wait>(
    rt: &R,
    cell: &TurnCell<Tally>,
    mut seat: CellSeat<Tally>,
    part: u32,
) -> CellSeat<Tally>
    requires own { IsSeatOf cell.now seat }
    requires free { IsFree seat }
    requires part { (part < 2) × ((view seat).first ≡ part) × (length (view seat).own ≡ 1) }
    ensures own { IsSeatOf cell.now result }
    ensures free { IsFree result }
    ensures part { ((view result).first ≡ part) × (length (view result).own ≡ 1) }
{
    for _ in 0..TURNS {
        let mut tally = cell.take(rt, &mut seat);
        tally.count(part);
        cell.give(&mut seat, tally);
    }
    seat
}

#[test]
fn two_threads_take_turns(rt: HostRuntime) -> Result<(), Fail> {
    let (cell, first, second) = two_seats(rt.alloc())?;
    let shared = &cell;
    let runtime = &rt;
    let (first, second) = join(
        runtime,
        move || -> CellSeat<Tally>
            requires { IsSeatOf shared.now first × IsFree first × ((view first).first ≡ 0)
                × (length (view first).own ≡ 1) }
            ensures { IsSeatOf shared.entry.now result × IsFree result × ((view result).first ≡ 0)
                × (length (view result).own ≡ 1) }
        { count_often(runtime, shared, first, 0) },
        move || -> CellSeat<Tally>
            requires { IsSeatOf shared.now second × IsFree second × ((view second).first ≡ 1)
                × (length (view second).own ≡ 1) }
            ensures { IsSeatOf shared.entry.now result × IsFree result × ((view result).first ≡ 1)
                × (length (view result).own ≡ 1) }
        { count_often(runtime, shared, second, 1) },
    );

    let tally = close(cell, first, second);
    let turns = u64::from(TURNS);
    let counted = tally.counted.len() == 2 * TURNS as usize;
    let each = tally.first == turns && tally.second == turns;
    drop(tally);
    assert!(rt; counted);
    assert!(rt; each);
    Ok(())
}
