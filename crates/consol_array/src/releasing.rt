//! A member releases its piece, and the last one of a group ends what the group has begun.
ghost use Rattle.std.specs.Prelude.{◌≡◌, ◌+◌, ◌<◌, ◌≤◌, ◌++◌};
ghost use Rattle.lsn_space.specs.declared.lsn.TheConstants.{LAST};
ghost use Rattle.log_rule.specs.declared.view.Call.TheVariants.{Emptying};
ghost use Rattle.log_table.specs.Seats.{IsOf, view_of};
ghost use Rattle.log_rule.specs.SlotViews.{piece_in};
ghost use Rattle.ring_buffer.specs.Calls.{HasEntries, KeepsEntries, SeesNoStop};
ghost use Rattle.consol_array.specs.Members.{HasFilledPiece, MayLeaveGroup};
ghost use Rattle.consol_array.specs.Releasing.{HasEmptied, HasReleased, HasLeft, SeesTheSame};

use crate::call::{FilledMember, Leaver, Released};
use log_table::{LogTable, Seat};
use lsn_space::Lsn;
use ring_buffer::expose;

/// Releases the seat's piece. Who is the last of its group to do so marks the group's range as released, whatever
/// stands before it, raises exposed as `expose` does, and opens the slot again.
#[inline(always)]
pub fn release(table: &LogTable, seat: &mut Seat, filled: FilledMember) -> Released
    requires seat { IsOf table.now seat.old }
    requires filled { HasFilledPiece table.now filled (view_of seat.old) }
    ensures at { result.at ≡ filled.at }
    ensures entries { HasEntries seat.old seat.new ((view_of seat.old).entries ++ piece_in (view_of seat.old).call)
        (view_of seat.old).books }
    ensures released { HasReleased table.now filled.n seat.old seat.new result.last }
    ensures stop { SeesNoStop seat.old seat.new }
{
    let state = table.release_slot(seat, filled.slot, filled.n);
    if state.remaining() != filled.n {
        return Released {
            at: filled.at,
            last: false,
        };
    }
    let base = Lsn::new(filled.at.units() - filled.offset);
    empty(table, seat, filled.slot, base, state.total());
    Released {
        at: filled.at,
        last: true,
    }
}

/// Marks the range of a group all of whose pieces are released, exposes, and opens the slot again.
#[inline(always)]
fn empty(table: &LogTable, seat: &mut Seat, slot: u32, base: Lsn, total: u32)
    requires seat { IsOf table.now seat.old }
    requires slot { slot < table.now.slots }
    requires emptying { (view_of seat.old).call ≡ Emptying slot base total }
    requires within { base + total ≤ LAST }
    ensures entries { KeepsEntries seat.old seat.new }
    ensures emptied { HasEmptied seat.old seat.new }
    ensures stop { SeesNoStop seat.old seat.new }
{
    let end = Lsn::new(base.units() + total);
    table.store_mark(seat, base, end);
    expose(table, seat);
    table.reopen(seat, slot);
}

/// Releases the piece that the seat wanted of a group that was refused. Answers whether it was the last of its
/// group to do so, which opens the slot again.
#[inline(always)]
pub fn leave_group(table: &LogTable, seat: &mut Seat, leaver: Leaver) -> bool
    requires seat { IsOf table.now seat.old }
    requires leaves { MayLeaveGroup table.now leaver (view_of seat.old) }
    ensures entries { KeepsEntries seat.old seat.new }
    ensures left { HasLeft table.now leaver.n seat.old seat.new result }
    ensures seen { SeesTheSame (view_of seat.old).seen (view_of seat.new).seen }
    ensures stop { SeesNoStop seat.old seat.new }
{
    let state = table.release_slot(seat, leaver.slot, leaver.n);
    if state.remaining() != leaver.n {
        return false;
    }
    table.reopen(seat, leaver.slot);
    true
}
