//! A seat joins the group at its slot.
ghost use Rattle.std.specs.Prelude.{◌≤◌, IfSome, IfNone};
ghost use Rattle.lsn_space.specs.declared.lsn.TheConstants.{GREATEST_RING};
ghost use Rattle.log_rule.specs.May.{IsAtRest};
ghost use Rattle.log_table.specs.Seats.{IsOf, view_of};
ghost use Rattle.ring_buffer.specs.Calls.{MayPlace};
ghost use Rattle.consol_array.specs.Joining.{LacksSlotRoom, IsStateJoined, TriesJoin};

use crate::call::{Joined, NotJoined};
use log_table::{LogTable, Seat};
use slot_word::{Phase, SlotWord};

/// The slot's state once a worker has joined with `n` units, where the group there gathers and has room for
/// them: a group gets at most a quarter of the ring.
#[inline(always)]
fn state_joined(state: SlotWord, ring: u32, n: u32) -> Option<SlotWord>
    requires ring { ring ≤ GREATEST_RING }
    ensures room { IfSome result (IsStateJoined ring n state) }
    ensures full { IfNone result (LacksSlotRoom ring n state) }
{
    if state.phase() != Phase::Gathering {
        return None;
    }
    if state.total() as u64 + n as u64 > (ring / 4) as u64 {
        return None;
    }
    Some(state.joined(n))
}

/// Joins the group at the seat's slot for the next record of the seat's last job, which has `n` units: by one
/// load of the slot's state and, where the group gathers and has room, one exchange. The seat isn't contended then,
/// whether it has joined or not.
#[inline(always)]
pub fn try_join(table: &LogTable, seat: &mut Seat, n: u32) -> Result<Joined, NotJoined>
    requires seat { IsOf table.now seat.old }
    requires slots { 1 ≤ table.now.slots }
    requires rests { IsAtRest (view_of seat.old) }
    requires next { MayPlace n (view_of seat.old).books }
    ensures { TriesJoin table.now seat.old seat.new n result }
{
    let slot = seat.worker() % table.slots();
    let loaded = table.load_slot(seat, slot);
    let Some(joined) = state_joined(loaded, table.ring(), n) else {
        return Err(NotJoined {
            loaded,
            found: loaded,
        });
    };
    match table.join_slot(seat, slot, loaded, joined) {
        Ok(()) => Ok(Joined {
            slot,
            offset: loaded.total(),
            n,
        }),
        Err(found) => Err(NotJoined { loaded, found }),
    }
}
