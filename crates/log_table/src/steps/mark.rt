//! The release marks: where a released range ends, at the place of its base.
ghost use Rattle.std.specs.Prelude.{◌%◌};
ghost use Rattle.log_rule.specs.Events.{marks, looks_mark};
ghost use Rattle.table_layout.specs.Layout.{Mark};
ghost use Rattle.log_rule.specs.MarkViews.{marked, saw_mark};
ghost use Rattle.log_rule.specs.May.{MayMark, MayLookMark};
ghost use Rattle.log_table.specs.Seats.{IsOf, view_of, number_of};
ghost use Rattle.log_table.specs.Steps.{ChangesWord, LoadsWord};

use crate::indexing::mark_place;
use crate::plays::{LoadMark, StoreMark};
use crate::table::{LogTable, Seat};
use lsn_space::Lsn;

impl LogTable {
    /// Marks a range as released, whatever stands before it: the seat's range, which is full and then one of
    /// its entries, or, by the last of a group to release, the whole range of the group.
    pub fn store_mark(&self, seat: &mut Seat, base: Lsn, end: Lsn)
        requires seat { IsOf self.now seat.old }
        requires next { MayMark base end (view_of seat.old) }
        ensures { ChangesWord self.now (Mark (base % self.now.ring)) (λ _. end)
            (marked (view_of seat.old)) (marks (number_of seat.old)) seat.old seat.new }
    {
        let index = mark_place(self.ring, base);
        self.table
            .shared
            .store::<StoreMark>(&mut seat.base, index, end.units() as u64);
    }

    /// The mark at the LSN that the seat has in hand. One above it is the end of a range that begins
    /// there and is to be exposed, unless exposed has moved; else nothing is ready there, and exposed has
    /// not moved.
    pub fn load_mark(&self, seat: &mut Seat, base: Lsn) -> Lsn
        requires seat { IsOf self.now seat.old }
        requires next { MayLookMark base (view_of seat.old) }
        ensures { LoadsWord self.now (Mark (base % self.now.ring)) result
            (saw_mark result (view_of seat.old)) (looks_mark (number_of seat.old)) seat.old seat.new }
    {
        let index = mark_place(self.ring, base);
        Lsn::new(self.table.shared.load::<LoadMark>(&mut seat.base, index) as u32)
    }
}
