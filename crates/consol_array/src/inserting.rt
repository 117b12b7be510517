//! A whole insert, alone or in a group.
ghost use Rattle.std.specs.Prelude.{◌≡◌, ◌++◌, ◌+◌, ◌≤◌, length, IfOk, IfSome, IfNone};
ghost use Rattle.lsn_space.specs.declared.lsn.TheConstants.{LAST};
ghost use Rattle.log_record.specs.Spelling.{spelling};
ghost use Rattle.log_rule.specs.declared.group_view.MemberStep.TheVariants.{Waits};
ghost use Rattle.log_rule.specs.declared.group_view.Piece.{Piece};
ghost use Rattle.log_rule.specs.Books.{next_of};
ghost use Rattle.log_table.specs.Seats.{IsOf, view_of};
ghost use Rattle.log_rule.specs.SlotViews.{step_joining};
ghost use Rattle.log_rule.specs.Views.{run_in};
ghost use Rattle.ring_buffer.specs.Calls.{IsReady, MayPlace, HasReserved, HasEntries, HasOnlySeen, SeesNoStop, filled_with};
ghost use Rattle.ring_buffer.specs.Inserting.{Inserts};
ghost use Rattle.consol_array.specs.Inserting.{HasComeTo, HasLostRound, TellsRefusal, WasRefused};
ghost use Rattle.consol_array.specs.Members.{IsAtStep, IsMember};

use crate::call::{Heard, Joined};
use crate::filling::fill_member;
use crate::hearing::hear;
use crate::joining::try_join;
use crate::leading::lead;
use crate::releasing::{leave_group, release};
use log_record::Units;
use log_table::{LogTable, Seat};
use lsn_space::Lsn;
use ring_buffer::{Range, Refused, expose, fill, finish, look, try_place};
use schedule_hook::{Gate, Place};
use std::sync::Wait;

/// What the rounds of an insert came to.
#[derive(Drop)]
pub(crate) enum Way {
    /// A range is reserved for the worker alone.
    Alone(Range),
    /// The worker has joined a group.
    InGroup(Joined),
}

/// Inserts the next record of the seat's last job, which has these units, behind what other workers have
/// reserved, and answers where it begins once it is released. It goes alone first; after an exchange of the tail that
/// was lost, in a table with slots, it joins the group at its slot where that takes it, and waits for its
/// leader. A group that is refused is refused to all its members, with the group's numbers.
#[inline(always)]
pub fn insert<R: Wait, G: Gate>(
    rt: &R,
    table: &LogTable,
    seat: &mut Seat,
    units: &Units,
    gate: &G,
) -> Result<Lsn, Refused>
    requires seat { IsOf table.now seat.old }
    requires ready { IsReady (view_of seat.old) }
    requires next { MayPlace (length units.now) (view_of seat.old).books }
    requires units { units.now ≡ spelling (next_of (view_of seat.old).books) }
    ensures { Inserts (WasRefused seat.old seat.new table.now.ring (length units.now)) seat.old seat.new (length units.now) result }
{
    let n = units.as_slice().len() as u32;
    match place_or_join(table, seat, n, gate)? {
        Way::Alone(range) => Ok(put_alone(table, seat, range, units, gate)),
        Way::InGroup(joined) => {
            lead_first(table, seat, &joined, gate);
            match hear(rt, table, seat, joined) {
                Heard::Base(member) => {
                    let filled = fill_member(table, seat, member, units);
                    gate.at(seat.worker(), Place::Filled);
                    Ok(release(table, seat, filled).at)
                }
                Heard::Refused(refused, leaver) => {
                    leave_group(table, seat, leaver);
                    Err(refused)
                }
            }
        }
    }
}

/// Reserves for the next record of the seat's last job alone, or joins a group for it, in as many rounds as it
/// takes. It returns: each round shows a greater tail.
#[inline(always)]
fn place_or_join<G: Gate>(
    table: &LogTable,
    seat: &mut Seat,
    n: u32,
    gate: &G,
) -> Result<Way, Refused>
    requires seat { IsOf table.now seat.old }
    requires ready { IsReady (view_of seat.old) }
    requires next { MayPlace n (view_of seat.old).books }
    ensures way { IfOk result (HasComeTo table.now seat.old seat.new n) }
    ensures refusal { TellsRefusal seat.old seat.new table.now.ring n result }
{
    'rounds: loop {
        if let Some(way) = try_round(table, seat, n, gate)? {
            return Ok(way);
        }
    }
}

/// Looks and reserves alone; where another worker was faster, and the table has slots, tries to join the
/// group at the seat's slot. None: neither gave a place.
#[inline(always)]
fn try_round<G: Gate>(
    table: &LogTable,
    seat: &mut Seat,
    n: u32,
    gate: &G,
) -> Result<Option<Way>, Refused>
    requires seat { IsOf table.now seat.old }
    requires ready { IsReady (view_of seat.old) }
    requires next { MayPlace n (view_of seat.old).books }
    ensures way { IfOk result (λ o. IfSome o (HasComeTo table.now seat.old seat.new n)) }
    ensures lost { IfOk result (λ o. IfNone o (HasLostRound seat.old seat.new)) }
    ensures refusal { TellsRefusal seat.old seat.new table.now.ring n result }
{
    let seen = look(table, seat);
    gate.at(seat.worker(), Place::Looked);
    if let Some(range) = try_place(table, seat, seen, n)? {
        return Ok(Some(Way::Alone(range)));
    }
    gate.at(seat.worker(), Place::Lost);
    if table.slots() == 0 {
        return Ok(None);
    }
    match try_join(table, seat, n) {
        Ok(joined) => Ok(Some(Way::InGroup(joined))),
        Err(_) => Ok(None),
    }
}

/// Copies the record into the range that was reserved for it alone, releases it and exposes. Answers where it
/// begins.
#[inline(always)]
fn put_alone<G: Gate>(
    table: &LogTable,
    seat: &mut Seat,
    range: Range,
    units: &Units,
    gate: &G,
) -> Lsn
    requires seat { IsOf table.now seat.old }
    requires range { HasReserved range units.now (view_of seat.old) }
    ensures at { result ≡ range.start }
    ensures fits { range.start + range.size ≤ LAST }
    ensures entries { HasEntries seat.old seat.new
        ((view_of seat.old).entries ++ run_in (filled_with units.now (view_of seat.old).call)) (view_of seat.old).books }
    ensures stop { SeesNoStop seat.old seat.new }
{
    gate.at(seat.worker(), Place::Placed);
    let at = range.start();
    let filled = fill(table, seat, range, units);
    gate.at(seat.worker(), Place::Filled);
    finish(table, seat, filled);
    gate.at(seat.worker(), Place::Marked);
    expose(table, seat);
    gate.at(seat.worker(), Place::Exposed);
    at
}

/// Who joined first leads its group; all pass the hook where they have joined.
#[inline(always)]
fn lead_first<G: Gate>(table: &LogTable, seat: &mut Seat, joined: &Joined, gate: &G)
    requires seat { IsOf table.now seat.old }
    requires joined { IsMember table.now joined.now.slot joined.now.offset joined.now.n (step_joining joined.now.offset)
        (view_of seat.old) }
    ensures stays { HasOnlySeen seat.old seat.new }
    ensures waits { (piece : Piece) → IsAtStep joined.now.slot piece (step_joining joined.now.offset) (view_of seat.old)
        → IsAtStep joined.now.slot piece Waits (view_of seat.new) }
{
    gate.at(seat.worker(), Place::Joined);
    if joined.offset != 0 {
        return;
    }
    lead(table, seat, joined);
    gate.at(seat.worker(), Place::Published);
}
