//! A range is looked for, and reserved.
ghost use Rattle.std.specs.Prelude.{◌≡◌, ℕ, ◌+◌, ◌<◌, ◌≤◌, Contains, OnOk, IfOk, IfErr, IfSome, IfNone};
ghost use Rattle.lsn_space.specs.declared.lsn.TheConstants.{GREATEST_RING};
ghost use Rattle.log_table.specs.Seats.{IsOf, Becomes, view_of};
ghost use Rattle.log_rule.specs.Views.{lost_alone, reserved};
ghost use Rattle.ring_buffer.specs.Calls.{IsReady, MayPlace, IsLastLook, HasRoom, Refuses, HasPlaced, HasLost, HasRefused, looked};

use crate::call::{Look, Range};
use crate::refused::Refused;
use log_table::{LogTable, Seat};
use lsn_space::Lsn;

/// Loads the tail, and then durable.
#[inline(always)]
pub fn look(table: &LogTable, seat: &mut Seat) -> Look
    requires seat { IsOf table.now seat.old }
    ensures becomes { Becomes seat.old seat.new (looked result.tail result.durable (view_of seat.old)) }
    ensures last { IsLastLook result (view_of seat.new) }
    ensures grows { (view_of seat.old).seen.tail ≤ result.tail }
    ensures durable { (view_of seat.old).seen.durable ≤ result.durable }
    ensures told { Contains (view_of seat.new).seen.lsns (view_of seat.new).seen.tail }
{
    let tail = table.load_tail(seat);
    let durable = table.load_durable(seat);
    Look { tail, durable }
}

/// The end of `n` units behind the tail that was looked at, or why there is no room for them.
#[inline(always)]
pub fn end_of(look: &Look, ring: u32, n: u32) -> Result<Lsn, Refused>
    requires ring { ring ≤ GREATEST_RING }
    ensures end { IfOk result (λ to. (to ≡ look.now.tail + n) × HasRoom ring look.now.tail look.now.durable n) }
    ensures refused { IfErr result (Refuses ring look.now.tail look.now.durable n) }
{
    let Some(to) = look.tail.plus(n) else {
        return Err(Refused::LogEnd {
            tail: look.tail,
            total: n,
        });
    };
    if to.units() as u64 > look.durable.units() as u64 + ring as u64 {
        return Err(Refused::RingFull {
            tail: look.tail,
            durable: look.durable,
            total: n,
        });
    }
    Ok(to)
}

/// Reserves the `n` units of the next record of the seat's last job by what was looked at. None:
/// another worker has reserved meanwhile, and in a table with slots the seat is contended now.
#[inline(always)]
pub fn try_place(
    table: &LogTable,
    seat: &mut Seat,
    look: Look,
    n: u32,
) -> Result<Option<Range>, Refused>
    requires seat { IsOf table.now seat.old }
    requires ready { IsReady (view_of seat.old) }
    requires look { IsLastLook look (view_of seat.old) }
    requires next { MayPlace n (view_of seat.old).books }
    ensures room { OnOk result (HasRoom table.now.ring look.tail look.durable n) }
    ensures placed { IfOk result (λ o. IfSome o (λ range. (range.start ≡ look.tail) × (range.size ≡ n)
        × Becomes seat.old seat.new (reserved look.tail (look.tail + n) (view_of seat.old)))) }
    ensures lost { IfOk result (λ o. IfNone o ((found : ℕ) × (look.tail < found)
        × Becomes seat.old seat.new (lost_alone found (view_of seat.old)))) }
    ensures refused { IfErr result (λ e. (seat.new ≡ seat.old) × Refuses table.now.ring look.tail look.durable n e) }
{
    let to = end_of(&look, table.ring(), n)?;
    match table.exchange_tail(seat, look.tail, to) {
        Ok(()) => Ok(Some(Range::new(look.tail, n))),
        Err(_) => Ok(None),
    }
}

/// Looks, and reserves the `n` units of the next record of the seat's last job where there is room.
/// None: another worker has reserved meanwhile, and in a table with slots the seat is contended now.
pub fn place_alone(table: &LogTable, seat: &mut Seat, n: u32) -> Result<Option<Range>, Refused>
    requires seat { IsOf table.now seat.old }
    requires ready { IsReady (view_of seat.old) }
    requires next { MayPlace n (view_of seat.old).books }
    ensures placed { IfOk result (λ o. IfSome o (HasPlaced seat.old seat.new table.now.ring n)) }
    ensures lost { IfOk result (λ o. IfNone o (HasLost seat.old seat.new table.now.ring n)) }
    ensures refused { IfErr result (HasRefused seat.old seat.new table.now.ring n) }
{
    let seen = look(table, seat);
    try_place(table, seat, seen, n)
}
