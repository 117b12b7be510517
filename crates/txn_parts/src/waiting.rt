//! A worker waits: between two attempts it looks whether the log has stopped, and rests.
ghost use Rattle.std.specs.Prelude.{◌≡◌, ◌<◌, ◌≤◌, true, false, IfOk, IfErr, IfSome, IfNone, OnOk, OnErr};
ghost use Rattle.log_table.specs.Seats.{IsOf, view_of};
ghost use Rattle.ring_buffer.specs.Calls.{IsReady, HasEntries};
ghost use Rattle.txn_parts.specs.Desk.{IsAtWork, WorksOn, HasOnlyLooked, view_at};
ghost use Rattle.txn_parts.specs.Stops.{HasStopped, HasSeen, IsLogEnd, IsRingFull};

use crate::desk::Desk;
use crate::listening::listen;
use crate::relief::Relief;
use crossbeam_utils::sync::Key;
use log_table::{LogTable, Seat};
use lsn_space::Lsn;
use ring_buffer::Refused;
use std::sync::Wait;
use txn_jobs::Cause;

/// What a worker does between two attempts: it looks whether the log has stopped, and rests, or waits with a key that it took before the
/// last attempt. Ok: the log had not stopped. Err: it has.
#[inline(always)]
pub fn pause<R: Wait, Q: Relief, G>(
    desk: &mut Desk<'_, R, Q, G>,
    key: Option<Key<'_>>,
) -> Result<(), Cause>
    requires work { IsAtWork Q.Relief desk.old }
    ensures work { WorksOn Q.Relief desk.old desk.new }
    ensures kept { HasOnlyLooked desk.old desk.new }
    ensures runs { OnOk result ((view_at desk.new).seen.stop ≡ 0) }
    ensures stopped { IfErr result (HasStopped desk.new) }
{
    let word = desk.table.load_stop(desk.seat);
    if word != 0 {
        return Err(Cause::Stop(word));
    }
    if let Some(key) = key {
        desk.relief.sleep(desk.rt, key);
    } else {
        desk.relief.rest();
    }
    Ok(())
}

/// The durable LSN as the worker sees it now; where it is to `wait`, once that is at or above the end.
#[inline(always)]
pub fn see_durable<R: Wait, Q: Relief, G>(
    desk: &mut Desk<'_, R, Q, G>,
    end: Lsn,
    wait: bool,
) -> Result<Lsn, Cause>
    requires work { IsAtWork Q.Relief desk.old }
    ensures work { WorksOn Q.Relief desk.old desk.new }
    ensures kept { HasOnlyLooked desk.old desk.new }
    ensures seen { IfOk result (HasSeen end wait (view_at desk.new)) }
    ensures waits { OnErr result (wait ≡ true) }
    ensures stopped { IfErr result (HasStopped desk.new) }
{
    desk.relief.begin();
    for _ in desk.rt.forever() {
        let key = listen(desk);
        if let Some(seen) = look_at_durable(desk.table, desk.seat, end, wait) {
            return Ok(seen);
        }
        pause(desk, key)?;
    }
    unreachable!()
}

/// The durable LSN as the worker sees it now. None: exactly where the worker is to wait, and that is below the end.
#[inline(always)]
fn look_at_durable(table: &LogTable, seat: &mut Seat, end: Lsn, wait: bool) -> Option<Lsn>
    requires seat { IsOf table.now seat.old }
    requires ready { IsReady (view_of seat.old) }
    ensures kept { HasEntries seat.old seat.new (view_of seat.old).entries (view_of seat.old).books }
    ensures seen { IfSome result (HasSeen end wait (view_of seat.new)) }
    ensures waits { IfNone result ((wait ≡ true) × ((view_of seat.new).seen.durable < end)) }
{
    let seen = table.load_durable(seat);
    if is_seen(end, seen, wait) {
        return Some(seen);
    }
    None
}

/// Whether the worker has seen what it is to see: exactly where it isn't to wait, or the end is durable.
#[inline(always)]
fn is_seen(end: Lsn, seen: Lsn, wait: bool) -> bool
    ensures seen { result ≡ true → wait ≡ true → end ≤ seen }
    ensures waits { result ≡ false → (wait ≡ true) × (seen < end) }
{
    !wait || end <= seen
}

/// Whether there may be room once more is on the disk: exactly where the ring is full. Err: there is no use in another attempt.
#[inline(always)]
pub fn may_come(refused: Refused) -> Result<(), Cause>
    ensures comes { OnOk result (IsRingFull refused) }
    ensures ends { IfErr result (IsLogEnd refused) }
{
    match refused {
        Refused::LogEnd { tail, total } => Err(Cause::LogEnd { tail, total }),
        Refused::RingFull { .. } => Ok(()),
    }
}
