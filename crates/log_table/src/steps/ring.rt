//! The ring: the units that are reserved and not yet on the disk.
ghost use Rattle.std.specs.Prelude.{◌%◌};
ghost use Rattle.log_rule.specs.Events.{IsStep, fills, none};
ghost use Rattle.table_layout.specs.Layout.{Ring};
ghost use Rattle.log_rule.specs.May.{MayFill, MayRead};
ghost use Rattle.log_table.specs.Seats.{IsOf, Becomes, view_of, number_of, key_of};
ghost use Rattle.log_table.specs.Steps.{ChangesWord};
ghost use Rattle.log_rule.specs.Sends.{ReadsWholeEntries};
ghost use Rattle.log_rule.specs.Views.{filled, has_read};

use crate::indexing::place;
use crate::plays::{LoadRing, StoreRing};
use crate::table::{LogTable, Seat};
use lsn_space::Lsn;
use table_layout::RING;

impl LogTable {
    /// Copies the next unit of the seat's record into the ring, to the range that it has reserved alone, or to its
    /// piece of its group's range.
    pub fn store_ring(&self, seat: &mut Seat, at: Lsn, unit: u64)
        requires seat { IsOf self.now seat.old }
        requires next { MayFill self.now.slots at unit (view_of seat.old) }
        ensures { ChangesWord self.now (Ring (at % self.now.ring)) (λ _. unit)
            (filled unit (view_of seat.old)) (fills (number_of seat.old)) seat.old seat.new }
    {
        let index = RING + place(at, self.ring);
        self.table
            .shared
            .store::<StoreRing>(&mut seat.base, index, unit);
    }

    /// Reads the next unit for the disk. Once all units up to exposed, as the flusher's seat loaded it
    /// last, are read, they are whole entries.
    pub fn load_ring(&self, seat: &mut Seat, at: Lsn) -> u64
        requires seat { IsOf self.now seat.old }
        requires next { MayRead at (view_of seat.old) }
        ensures view { Becomes seat.old seat.new (has_read result (view_of seat.old)) }
        ensures whole { ReadsWholeEntries (has_read result (view_of seat.old)) }
        ensures event { IsStep (key_of self.now) (number_of seat.old) (Ring (at % self.now.ring)) result result
            (view_of seat.old) (has_read result (view_of seat.old)) none }
    {
        let index = RING + place(at, self.ring);
        self.table.shared.load::<LoadRing>(&mut seat.base, index)
    }
}
