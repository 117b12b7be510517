//! A leader reserves for its group, and tells it.
ghost use Rattle.std.specs.Prelude.{IfSome, IfNone};
ghost use Rattle.log_rule.specs.declared.group_view.MemberStep.TheVariants.{Closes};
ghost use Rattle.log_table.specs.Seats.{IsOf, view_of};
ghost use Rattle.ring_buffer.specs.Calls.{HasOnlySeen};
ghost use Rattle.consol_array.specs.Leading.{HasClosed, HasPlacedGroup, IsOvertaken, HasTold, HasDecided};
ghost use Rattle.consol_array.specs.Members.{IsMember};

use crate::call::Joined;
use crate::refusing::refusal_word;
use log_table::{LogTable, Seat};
use ring_buffer::{end_of, look};
use slot_word::SlotWord;

/// Closes the group that the seat leads, so that nobody joins it any more; reserves for it by one exchange of
/// the tail, looking again after each that was lost, or refuses it where by the last look there is no room;
/// and tells its members. It returns: each exchange that is lost shows a greater tail.
#[inline(always)]
pub fn lead(table: &LogTable, seat: &mut Seat, joined: &Joined)
    requires seat { IsOf table.now seat.old }
    requires leads { IsMember table.now joined.now.slot joined.now.offset joined.now.n Closes (view_of seat.old) }
    ensures stays { HasOnlySeen seat.old seat.new }
    ensures told { HasTold joined.now.slot (view_of seat.old) (view_of seat.new) }
    ensures decided { HasDecided table.now.ring (view_of seat.old) (view_of seat.new) }
{
    let gathered = table.close_slot(seat, joined.slot);
    let state = place_group(table, seat, joined.slot, gathered.total());
    table.publish(seat, joined.slot, state);
}

/// Looks and reserves the units of the closed group until no other worker is faster, or refuses it; stores
/// what its members are to hear, and answers the state that tells them.
#[inline(always)]
fn place_group(table: &LogTable, seat: &mut Seat, slot: u32, total: u32) -> SlotWord
    requires seat { IsOf table.now seat.old }
    requires closed { HasClosed table.now slot total (view_of seat.old) }
    ensures stays { HasOnlySeen seat.old seat.new }
    ensures placed { HasPlacedGroup table.now.ring slot total (view_of seat.old) (view_of seat.new) result }
{
    'places: loop {
        if let Some(state) = try_place_group(table, seat, slot, total) {
            return state;
        }
    }
}

/// Looks, and reserves the units of the closed group where there is room, or refuses it. None: another worker
/// has reserved meanwhile.
#[inline(always)]
fn try_place_group(table: &LogTable, seat: &mut Seat, slot: u32, total: u32) -> Option<SlotWord>
    requires seat { IsOf table.now seat.old }
    requires closed { HasClosed table.now slot total (view_of seat.old) }
    ensures stays { HasOnlySeen seat.old seat.new }
    ensures placed { IfSome result (HasPlacedGroup table.now.ring slot total (view_of seat.old) (view_of seat.new)) }
    ensures overtaken { IfNone result (IsOvertaken (view_of seat.old) (view_of seat.new)) }
{
    let seen = look(table, seat);
    let Ok(to) = end_of(&seen, table.ring(), total) else {
        table.store_base(seat, slot, refusal_word(&seen));
        return Some(SlotWord::refused(total, total));
    };
    match table.exchange_tail(seat, seen.tail, to) {
        Ok(()) => {
            table.store_base(seat, slot, seen.tail.units() as u64);
            Some(SlotWord::published(total, total))
        }
        Err(_) => None,
    }
}
