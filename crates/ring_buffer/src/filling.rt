//! A range is filled.
ghost use Rattle.std.specs.Prelude.{◌≡◌, ◌+◌};
ghost use Rattle.log_table.specs.Seats.{IsOf, Becomes, view_of};
ghost use Rattle.ring_buffer.specs.Calls.{HasReserved, with_units};

use crate::call::{Filled, Range};
use log_record::Units;
use log_table::{LogTable, Seat};
use lsn_space::Lsn;

/// Copies the units of the record for which the range was reserved into the ring.
#[inline(always)]
pub fn fill(table: &LogTable, seat: &mut Seat, range: Range, units: &Units) -> Filled
    requires seat { IsOf table.now seat.old }
    requires range { HasReserved range units.now (view_of seat.old) }
    ensures range { result.range ≡ range }
    ensures becomes { Becomes seat.old seat.new
        (with_units units.now ((view_of seat.old).seen.steps + range.size) (view_of seat.old)) }
{
    let list = units.as_slice();
    for i in 0..list.len() {
        let at = Lsn::new(range.start().units() + i as u32);
        table.store_ring(seat, at, list[i]);
    }
    Filled { range }
}
