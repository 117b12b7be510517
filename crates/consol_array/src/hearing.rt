//! A member waits until its group is told.
ghost use Rattle.std.specs.Prelude.{IfSome, IfNone};
ghost use Rattle.log_rule.specs.declared.group_view.MemberStep.TheVariants.{Waits};
ghost use Rattle.log_rule.specs.declared.group_view.Piece.{Piece};
ghost use Rattle.log_table.specs.Seats.{IsOf, view_of};
ghost use Rattle.consol_array.specs.Hearing.{HasSeenTold, HasSeenUntold, IsToHear, HasHeard, step_told};
ghost use Rattle.consol_array.specs.Members.{IsAtStep, IsMember};

use crate::call::{Heard, Joined, Leaver, Member};
use crate::refusing::refusal_of;
use crossbeam_utils::Backoff;
use log_table::{LogTable, Seat};
use lsn_space::Lsn;
use slot_word::{Phase, SlotWord};
use std::sync::Wait;

/// Waits until the group of the seat is told, and hears what became of it. Between the first looks it
/// spins, and between later ones it lets other threads run.
#[inline(always)]
pub fn hear<R: Wait>(rt: &R, table: &LogTable, seat: &mut Seat, joined: Joined) -> Heard
    requires seat { IsOf table.now seat.old }
    requires waits { IsMember table.now joined.slot joined.offset joined.n Waits (view_of seat.old) }
    ensures heard { (piece : Piece) → IsAtStep joined.slot piece Waits (view_of seat.old)
        → HasHeard table.now.ring joined piece seat.old seat.new result }
{
    let backoff = Backoff::new();
    for _ in rt.forever() {
        if let Some(state) = look_told(table, seat, &joined) {
            return hear_told(table, seat, joined, state);
        }
        backoff.snooze();
    }
    unreachable!()
}

/// Looks once at the slot's state. Some: the group of the seat is told, by this state.
#[inline(always)]
pub fn look_told(table: &LogTable, seat: &mut Seat, joined: &Joined) -> Option<SlotWord>
    requires seat { IsOf table.now seat.old }
    requires waits { IsMember table.now joined.now.slot joined.now.offset joined.now.n Waits (view_of seat.old) }
    ensures told { IfSome result (HasSeenTold joined.now.slot seat.old seat.new) }
    ensures untold { IfNone result (HasSeenUntold joined.now.slot seat.old seat.new) }
{
    let state = table.load_slot(seat, joined.slot);
    match state.phase() {
        Phase::Published | Phase::Refused => Some(state),
        Phase::Gathering | Phase::Pending => None,
    }
}

/// Hears what became of the group, which this state tells.
#[inline(always)]
fn hear_told(table: &LogTable, seat: &mut Seat, joined: Joined, state: SlotWord) -> Heard
    requires seat { IsOf table.now seat.old }
    requires hears { IsToHear table.now joined state (view_of seat.old) }
    ensures heard { (piece : Piece) → IsAtStep joined.slot piece (step_told state) (view_of seat.old)
        → HasHeard table.now.ring joined piece seat.old seat.new result }
{
    let Joined { slot, offset, n } = joined;
    let word = table.load_base(seat, slot);
    if state.phase() == Phase::Refused {
        let refused = refusal_of(word, state.total(), table.ring());
        return Heard::Refused(refused, Leaver { slot, n });
    }
    let at = Lsn::new(word as u32 + offset);
    Heard::Base(Member {
        slot,
        offset,
        at,
        n,
    })
}
