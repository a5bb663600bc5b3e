// How seats share out a range of parts, and bring it back.
ghost use Rattle.std.specs.Prelude.{◌≡◌, ◌+◌, ◌-◌, [], length, min};
ghost use mathlib.Core.List.{IsPrefix};
ghost use Rattle.turn_cell.specs.View.{Adjoin, CutsWithin, view_after_join, left_at, right_at};
ghost use Rattle.turn_cell.specs.Words.{view, IsFree, IsSeatOf};

use super::{CellSeat, RangeSeat, TableSeat, TurnCell};
use crate::parted::Parted;
use crate::plays::{Combine, Settle};
use crate::view::SeatView;
use atomic_table::Split;
use std::marker::Brand;

impl<T: Parted> TurnCell<T> {
    /// Moves the parts from a place on to a new seat.
    pub fn split(&self, seat: &mut CellSeat<T>, from: u32) -> CellSeat<T>
        requires own { IsSeatOf self.now seat.old }
        requires free { IsFree seat.old }
        requires inside { CutsWithin from (view seat.old) }
        ensures own { IsSeatOf self.now seat.new × IsSeatOf self.now result }
        ensures left { IsFree seat.new × (view seat.new ≡ left_at from (view seat.old)) }
        ensures right { IsFree result × (view result ≡ right_at from (view seat.old)) }
        ensures left_size { length (view seat.new).own ≡ from - (view seat.old).first }
        ensures right_size { length (view result).own
            ≡ (view seat.old).first + length (view seat.old).own - from }
    {
        let right = self.cut::<Brand>(seat, from);
        RangeSeat {
            seat: right,
            number: from,
        }
    }

    // The split, of which the caller picks the members of M: the two views that a cut at this place makes.
    fn cut<M: Split<SeatView<T::Part, T::Entry>>>(
        &self,
        seat: &mut CellSeat<T>,
        from: u32,
    ) -> TableSeat<T>
        requires left { M.left (view seat.old) ≡ left_at from (view seat.old) }
        requires right { M.right (view seat.old) ≡ right_at from (view seat.old) }
        requires own { IsSeatOf self.now seat.old }
        requires free { IsFree seat.old }
        requires inside { CutsWithin from (view seat.old) }
        ensures own { IsSeatOf self.now seat.new
            × (result.table_id ≡ self.now.table.shared.table_id) }
        ensures left { view seat.new ≡ left_at from (view seat.old) }
        ensures right { (result.me.0 ≡ right_at from (view seat.old)) × (result.me.1 ≡ []) }
    {
        self.table.shared.split_seat::<M>(&mut seat.seat)
    }

    /// Brings the adjoining parts of another seat back. Of the two trails the seat then knows the longer.
    pub fn join(&self, seat: &mut CellSeat<T>, other: CellSeat<T>)
        requires own { IsSeatOf self.now seat.old × IsSeatOf self.now other }
        requires free { IsFree seat.old × IsFree other }
        requires adjoin { Adjoin (view seat.old) (view other) }
        ensures own { IsSeatOf self.now seat.new }
        ensures joined { IsFree seat.new × (view seat.new
            ≡ view_after_join (view seat.old) (view other)) }
        ensures first { (view seat.new).first ≡ min (view seat.old).first (view other).first }
        ensures size { length (view seat.new).own
            ≡ length (view seat.old).own + length (view other).own }
        ensures own_trail { IsPrefix (view seat.old).trail (view seat.new).trail }
        ensures other_trail { IsPrefix (view other).trail (view seat.new).trail }
    {
        let RangeSeat {
            seat: other,
            number: other_number,
        } = other;
        let RangeSeat { seat, number } = seat;
        let shared = &self.table.shared;
        shared.join_seat::<Combine>(seat, other);
        shared.load::<Settle<T>>(seat, 0);
        *number = (*number).min(other_number);
    }
}
