//! A range is released, and exposed is raised past what is released.
ghost use Rattle.std.specs.Prelude.{◌≡◌, ◌≤◌, ◌<◌, IfSome, IfNone};
ghost use Rattle.log_rule.specs.GroupViews.{follow_up};
ghost use Rattle.log_rule.specs.MarkViews.{marked};
ghost use Rattle.log_table.specs.Seats.{IsOf, Becomes, view_of};
ghost use Rattle.ring_buffer.specs.Calls.{HasFilled, HasMarked, HasInHand, HasExposed, HasOnlySeen};

use crate::call::Filled;
use log_table::{LogTable, Seat};
use lsn_space::Lsn;

/// Marks the range as released, whether or not all before it is. It waits for nobody: whoever releases
/// what stands before it takes it along.
#[inline(always)]
pub fn finish(table: &LogTable, seat: &mut Seat, filled: Filled)
    requires seat { IsOf table.now seat.old }
    requires filled { HasFilled filled.range (view_of seat.old) }
    ensures becomes { Becomes seat.old seat.new (marked (view_of seat.old)) }
{
    table.store_mark(seat, filled.range.start(), filled.range.end());
}

/// Raises exposed past each released range that it has come to, this worker's or another's, and answers
/// where it saw exposed last; no released range began there. Who marked a group's range has the slot still
/// to open again. It returns: each exchange, made or lost, shows a greater LSN.
#[inline(always)]
pub fn expose(table: &LogTable, seat: &mut Seat) -> Lsn
    requires seat { IsOf table.now seat.old }
    requires marked { HasMarked (view_of seat.old) }
    ensures stays { HasOnlySeen seat.old seat.new }
    ensures over { HasExposed result (view_of seat.old) (view_of seat.new) }
    ensures grows { (view_of seat.old).seen.exposed ≤ result }
{
    let mut at = table.load_exposed(seat);
    'raises: loop {
        let Some(found) = raise(table, seat, at) else {
            return at;
        };
        at = found;
    }
}

/// Raises exposed past the released range that begins at the LSN in hand, unless exposed has moved, and
/// answers where it is then. None: no released range begins there, and nothing is left to expose.
#[inline(always)]
fn raise(table: &LogTable, seat: &mut Seat, at: Lsn) -> Option<Lsn>
    requires seat { IsOf table.now seat.old }
    requires hand { HasInHand at (view_of seat.old) }
    ensures stays { HasOnlySeen seat.old seat.new }
    ensures after { follow_up (view_of seat.new).call ≡ follow_up (view_of seat.old).call }
    ensures raised { IfSome result (λ found. (at < found) × HasInHand found (view_of seat.new)) }
    ensures over { IfNone result (HasExposed at (view_of seat.old) (view_of seat.new)) }
{
    let end = table.load_mark(seat, at);
    if end <= at {
        return None;
    }
    match table.exchange_exposed(seat, at, end) {
        Ok(()) => Some(end),
        Err(found) => Some(found),
    }
}
