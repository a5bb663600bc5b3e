// The rule of the table, and what each atomic step tells its seat. These types are for proofs alone.
use crate::parted::Parted;
use crate::view::SeatView;
use atomic_table::{Join, Play, Split, TableRule};
use std::marker::{Brand, PhantomData};
use std::snapshot::Snapshot;

/// The rule of a cell; its key is the value that the cell was made with.
pub struct TurnRule<T> {
    marker: PhantomData<T>,
}

impl<T: Parted> TableRule<Option<T>, SeatView<T::Part, T::Entry>, Snapshot<T>> for TurnRule<T> {
    ghost use Rattle.turn_cell.specs.View.{opening_view};
    ghost use Rattle.turn_cell.specs.Rule.{IsConsistent};

    ghost holds = { λ key. IsConsistent T.parts_of T.trail_of (T.parts_of key.value) };

    ghost first = { λ key. opening_view (T.parts_of key.value) (T.trail_of key.value) };
}

/// A try that counts a miss where the value is out.
pub struct Try<T> {
    marker: PhantomData<T>,
}

impl<T: Parted> Play<Option<T>, SeatView<T::Part, T::Entry>> for Try<T> {
    ghost use Rattle.turn_cell.specs.Steps.{tries};

    ghost then = { λ step. tries T.parts_of T.trail_of };
}

/// A try of a seat that waits, which counts that it was made.
pub struct Await<T> {
    marker: PhantomData<T>,
}

impl<T: Parted> Play<Option<T>, SeatView<T::Part, T::Entry>> for Await<T> {
    ghost use Rattle.turn_cell.specs.Steps.{waits};

    ghost then = { λ step. waits T.parts_of T.trail_of };
}

pub struct Announce<T> {
    marker: PhantomData<T>,
}

impl<T: Parted> Play<Option<T>, SeatView<T::Part, T::Entry>> for Announce<T> {
    ghost use Rattle.turn_cell.specs.Steps.{announces};

    ghost then = { λ step me word. announces T.parts_of T.trail_of step.said me };
}

pub struct Release<T> {
    marker: PhantomData<T>,
}

impl<T: Parted> Play<Option<T>, SeatView<T::Part, T::Entry>> for Release<T> {
    ghost use Rattle.turn_cell.specs.Steps.{releases};

    ghost then = { λ step me word. releases me };
}

pub struct Look<T> {
    marker: PhantomData<T>,
}

impl<T: Parted> Play<Option<T>, SeatView<T::Part, T::Entry>> for Look<T> {
    ghost use Rattle.turn_cell.specs.Steps.{looks};

    ghost then = { λ step. looks };
}

/// After a join one of the two trails is kept.
pub struct Settle<T> {
    marker: PhantomData<T>,
}

impl<T: Parted> Play<Option<T>, SeatView<T::Part, T::Entry>> for Settle<T> {
    ghost use Rattle.turn_cell.specs.Steps.{settles};

    ghost then = { λ step me word. settles me };
}

// The place of a cut is known only at run time: the caller picks these two members.
impl<P, E> Split<SeatView<P, E>> for Brand {
    ghost left = { λ v. v };

    ghost right = { λ v. v };
}

/// Two views made one.
pub struct Combine;

impl<P, E> Join<SeatView<P, E>> for Combine {
    ghost use Rattle.turn_cell.specs.View.{combine, spent_view};

    ghost both = { combine };

    ghost spent = { spent_view };
}
