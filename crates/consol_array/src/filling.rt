//! A member's piece is filled.
ghost use Rattle.std.specs.Prelude.{◌+◌};
ghost use Rattle.log_table.specs.Seats.{IsOf, Becomes, view_of};
ghost use Rattle.ring_buffer.specs.Calls.{with_units};
ghost use Rattle.consol_array.specs.Members.{HasPiece, IsSamePiece};

use crate::call::{FilledMember, Member};
use log_record::Units;
use log_table::{LogTable, Seat};
use lsn_space::Lsn;

/// Copies the units of the record for which the seat joined into its piece of the group's range.
#[inline(always)]
pub fn fill_member(table: &LogTable, seat: &mut Seat, member: Member, units: &Units) -> FilledMember
    requires seat { IsOf table.now seat.old }
    requires piece { HasPiece table.now member units.now (view_of seat.old) }
    ensures piece { IsSamePiece member result }
    ensures becomes { Becomes seat.old seat.new (with_units units.now ((view_of seat.old).seen.steps + member.n) (view_of seat.old)) }
{
    let list = units.as_slice();
    for i in 0..list.len() {
        let at = Lsn::new(member.at.units() + i as u32);
        table.store_ring(seat, at, list[i]);
    }
    let Member {
        slot,
        offset,
        at,
        n,
    } = member;
    FilledMember {
        slot,
        offset,
        at,
        n,
    }
}
