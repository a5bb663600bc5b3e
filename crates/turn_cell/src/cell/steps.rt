// The turn: how a seat takes the value, gives it back, and looks at the word.
ghost use Rattle.std.specs.Prelude.{◌≡◌, ◌≢◌, ◌+◌, ◌<◌, [], ◌∷◌, IfErr, IfOk, None, OnErr, OnOk, Some, length};
ghost use Rattle.turn_cell.specs.Steps.{tries, waits};
ghost use Rattle.turn_cell.specs.View.{Continues, with_turn, with_word, with_miss, with_wait, with_waits, with_look, with_offer, view_after_give};
ghost use Rattle.turn_cell.specs.View.{HoldsTurn, Offers, KeepsOtherParts, ExtendsTrail, view_after_release};
ghost use Rattle.turn_cell.specs.Words.{view, IsFree, IsSeatOf, HasTaken, HoldsValue, name_of};

use super::{Busy, CellSeat, RangeSeat, TableSeat, TurnCell};
use crate::parted::Parted;
use crate::plays::{Announce, Await, Look, Release, Try};
use std::sync::Wait;
use std::sync::atomic::Ordering;

impl<T: Parted> TurnCell<T> {
    /// Takes the value. It waits while the value is out, and counts no miss: its tries are counted apart.
    pub fn take<R: Wait>(&self, rt: &R, seat: &mut CellSeat<T>) -> T
        requires own { IsSeatOf self.now seat.old }
        requires free { IsFree seat.old }
        ensures own { IsSeatOf self.now seat.new }
        ensures taken { HasTaken T.parts_of T.trail_of seat.new result }
        ensures others { view seat.new
            ≡ with_turn (with_waits (view seat.old) (view seat.new).waiting_tries)
            (view seat.new).turn 0 }
        ensures waited { (view seat.old).waiting_tries < (view seat.new).waiting_tries }
        ensures continues { Continues T.parts_of T.trail_of (view seat.old) result }
    {
        for _ in rt.forever() {
            match self.attempt(seat) {
                Ok(value) => return value,
                // A seat's number plus one fits the 32 bits that are watched, as a value has fewer than 2^32 parts.
                Err(word) => self.sleep(rt, (word % (1 << 32)) as u32),
            }
        }
        unreachable!()
    }

    // Sleeps while the word is this one. Whoever gives the value back after it was counted here finds it, and wakes it; whoever
    // did so before has changed the word.
    fn sleep<R: Wait>(&self, rt: &R, word: u32) {
        self.sleepers.fetch_add(1, Ordering::SeqCst);
        self.table.shared.park(rt, 0, word);
        self.sleepers.fetch_sub(1, Ordering::SeqCst);
    }

    // Tries once for a seat that waits, and answers the word where the value is out.
    fn attempt(&self, seat: &mut CellSeat<T>) -> Result<T, u64>
        requires own { IsSeatOf self.now seat.old }
        requires free { IsFree seat.old }
        ensures own { IsSeatOf self.now seat.new }
        ensures taken { IfOk result (HasTaken T.parts_of T.trail_of seat.new) }
        ensures others { OnOk result
            (view seat.new ≡ with_turn (with_wait (view seat.old)) (view seat.new).turn 0) }
        ensures continues { IfOk result (Continues T.parts_of T.trail_of (view seat.old)) }
        ensures free { OnErr result (IsFree seat.new) }
        ensures found { IfErr result (λ word.
            view seat.new ≡ with_word (with_wait (view seat.old)) word) }
    {
        let own_word = seat.own_word();
        let word = self.waiting_step(&mut seat.seat, own_word);
        if word != 0 {
            return Err(word);
        }
        Ok(self.slot_out(&mut seat.seat))
    }

    // The atomic step of such a try, which answers the word that it found.
    fn waiting_step(&self, seat: &mut TableSeat<T>, own_word: u64) -> u64
        requires own { seat.old.table_id ≡ self.now.table.shared.table_id }
        requires numbered { own_word ≡ seat.old.me.0.first + 1 }
        requires some_part { 0 < length seat.old.me.0.own }
        ensures own { seat.new.table_id ≡ seat.old.table_id }
        ensures waited { waits T.parts_of T.trail_of seat.old.me result seat.new.me }
    {
        self.table
            .shared
            .compare_exchange::<Await<T>>(seat, 0, 0, own_word)
    }

    /// Takes the value, or finds that it is out and counts a miss. It tries once, and makes no try of a seat that waits.
    pub fn try_take(&self, seat: &mut CellSeat<T>) -> Result<T, Busy>
        requires own { IsSeatOf self.now seat.old }
        requires free { IsFree seat.old }
        ensures own { IsSeatOf self.now seat.new }
        ensures taken { IfOk result (HasTaken T.parts_of T.trail_of seat.new) }
        ensures others { OnOk result
            (view seat.new ≡ with_turn (view seat.old) (view seat.new).turn 0) }
        ensures continues { IfOk result (Continues T.parts_of T.trail_of (view seat.old)) }
        ensures busy { IfErr result (λ busy. (busy.cell ≡ name_of self.now) × (busy.word ≢ 0)) }
        ensures free { OnErr result (IsFree seat.new) }
        ensures missed { IfErr result (λ busy.
            view seat.new ≡ with_miss (view seat.old) busy.word) }
    {
        let own_word = seat.own_word();
        let word = self.trying_step(&mut seat.seat, own_word);
        if word != 0 {
            return Err(Busy {
                cell: self.name,
                word,
            });
        }
        Ok(self.slot_out(&mut seat.seat))
    }

    // The atomic step of a try that counts its misses.
    fn trying_step(&self, seat: &mut TableSeat<T>, own_word: u64) -> u64
        requires own { seat.old.table_id ≡ self.now.table.shared.table_id }
        requires numbered { own_word ≡ seat.old.me.0.first + 1 }
        requires some_part { 0 < length seat.old.me.0.own }
        ensures own { seat.new.table_id ≡ seat.old.table_id }
        ensures tried { tries T.parts_of T.trail_of seat.old.me result seat.new.me }
    {
        self.table
            .shared
            .compare_exchange::<Try<T>>(seat, 0, 0, own_word)
    }

    // Takes the value out of the slot, which the turn has put into the seat's hands.
    fn slot_out(&self, seat: &mut TableSeat<T>) -> T
        requires own { seat.old.table_id ≡ self.now.table.shared.table_id }
        requires full { (x : T) × (seat.old.me.1 ≡ (0, Some x) ∷ []) }
        ensures own { seat.new.table_id ≡ seat.old.table_id }
        ensures out { seat.old.me.1 ≡ (0, Some result) ∷ [] }
        ensures empty { seat.new.me ≡ (seat.old.me.0, (0, None) ∷ []) }
    {
        let Some(value) = self.table.shared.exchange(seat, 0, None) else {
            unreachable!()
        };
        value
    }

    /// Gives the value back and wakes one seat that waits, if there is one. The seat's own parts may be other ones, and the trail may have
    /// become longer.
    pub fn give(&self, seat: &mut CellSeat<T>, value: T)
        requires own { IsSeatOf self.now seat.old }
        requires holds { HoldsValue seat.old }
        requires parts { KeepsOtherParts T.parts_of (view seat.old) value }
        requires trail { ExtendsTrail T.trail_of (view seat.old) value }
        ensures own { IsSeatOf self.now seat.new }
        ensures free { IsFree seat.new }
        ensures given { view seat.new
            ≡ view_after_give (view seat.old) (T.parts_of value) (T.trail_of value) }
    {
        let own_word = seat.own_word();
        self.slot_home(&mut seat.seat, own_word, value);
        self.release(&mut seat.seat);
        if self.sleepers.load(Ordering::SeqCst) != 0 {
            self.table.shared.wake_one(0);
        }
    }

    // Announces the value, and puts it into the slot.
    fn slot_home(&self, seat: &mut TableSeat<T>, own_word: u64, value: T)
        requires own { seat.old.table_id ≡ self.now.table.shared.table_id }
        requires numbered { own_word ≡ seat.old.me.0.first + 1 }
        requires holds { HoldsTurn seat.old.me.0 }
        requires empty { seat.old.me.1 ≡ (0, None) ∷ [] }
        requires some_part { 0 < length seat.old.me.0.own }
        requires parts { KeepsOtherParts T.parts_of seat.old.me.0 value }
        requires trail { ExtendsTrail T.trail_of seat.old.me.0 value }
        ensures own { seat.new.table_id ≡ seat.old.table_id }
        ensures offered { seat.new.me.0
            ≡ with_offer seat.old.me.0 (T.parts_of value) (T.trail_of value) }
        ensures home { seat.new.me.1 ≡ (0, Some value) ∷ [] }
    {
        let offered = Some(value);
        let shared = &self.table.shared;
        shared.compare_exchange_with::<Announce<T>>(seat, 0, own_word, own_word, &offered);
        let before = shared.exchange(seat, 0, offered);
        let None = before else { unreachable!() };
    }

    // Ends the turn of a seat whose slot has the value that it announced.
    fn release(&self, seat: &mut TableSeat<T>)
        requires own { seat.old.table_id ≡ self.now.table.shared.table_id }
        requires home { (x : T) × (seat.old.me.1 ≡ (0, Some x) ∷ [])
            × Offers T.parts_of T.trail_of seat.old.me.0 x }
        requires some_part { 0 < length seat.old.me.0.own }
        ensures own { seat.new.table_id ≡ seat.old.table_id }
        ensures given { seat.new.me ≡ (view_after_release seat.old.me.0, []) }
        ensures same_length { length seat.new.me.0.own ≡ length seat.old.me.0.own }
    {
        self.table.shared.store::<Release<T>>(seat, 0, 0);
    }

    /// The word: 0 where the value is in the cell, or the number of the seat that has it, plus one.
    pub fn word(&self, seat: &mut CellSeat<T>) -> u64
        requires own { IsSeatOf self.now seat.old }
        ensures own { IsSeatOf self.now seat.new }
        ensures look { view seat.new ≡ with_look (view seat.old) result }
    {
        self.table.shared.load::<Look<T>>(&mut seat.seat, 0)
    }
}

impl<T, P, E> RangeSeat<T, P, E> {
    // The word while this seat has the value: its number plus one.
    fn own_word(&self) -> u64
        ensures { result ≡ (view self.now).first + 1 }
    {
        u64::from(self.number) + 1
    }
}
