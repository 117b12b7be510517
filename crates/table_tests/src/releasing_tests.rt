//! Releases out of turn: whoever comes to a released range exposes it, and a look that is old by a lap exposes nothing.
ghost use Rattle.std.specs.Prelude.{◌≡◌, IfSome};
ghost use Rattle.log_rule.specs.declared.group_view.After.TheVariants.{Nothing};
ghost use Rattle.log_rule.specs.declared.view.Call.TheVariants.{Marked, Holding};
ghost use Rattle.log_table.specs.Seats.{IsOf, view_of};
ghost use Rattle.ring_buffer.specs.Calls.{HasReserved};

use crate::found::is_at;
use log_record::Units;
use log_table::{LogTable, Seat};
use lsn_space::Lsn;
use ring_buffer::{Range, expose, fill, finish};
use std::process::Abort;
use std::test::Fail;
use test_rig::{insert_all, note_units, noted_job, place_note, send_all, table_of, worker};

/// Fills the range that was reserved for these units, and marks it.
fn mark(table: &LogTable, seat: &mut Seat, range: Range, units: &Units)
    requires own { IsOf table.now seat.old }
    requires reserved { HasReserved range units.now (view_of seat.old) }
    ensures own { IsOf table.now seat.new }
    ensures marked { (view_of seat.new).call ≡ Marked Nothing }
{
    let filled = fill(table, seat, range, units);
    finish(table, seat, filled);
}

/// Fills the range that was reserved for these units, marks it, and exposes; answers where exposed was
/// seen last.
fn release(table: &LogTable, seat: &mut Seat, range: Range, units: &Units) -> Lsn
    requires own { IsOf table.now seat.old }
    requires reserved { HasReserved range units.now (view_of seat.old) }
{
    mark(table, seat, range, units);
    expose(table, seat)
}

/// This range was reserved.
fn is_range(rt: &impl Abort, range: &Range, from: u32, to: u32) {
    is_at(rt, "start", range.start(), from);
    is_at(rt, "end", range.end(), to);
}

#[test]
fn a_range_behind_a_gap_is_exposed_with_it(rt: HostRuntime) -> Result<(), Fail> {
    let (table, mut flusher_seat) = table_of(rt.alloc(), (100, 0), 4)?;
    let mut one = worker(&table, &mut flusher_seat, 0, 1);
    let mut two = worker(&table, &mut flusher_seat, 1, 2);
    let (Some(first), Some(second)) = (noted_job(b"aaaaaaaa"), noted_job(b"bbbbbbbbb")) else {
        return Err(Fail::new("no job"));
    };
    let (short, long) = (note_units(1, &first), note_units(2, &second));
    let Ok(Some(range)) = place_note(&table, &mut one, 1, &first, &short) else {
        return Err(Fail::new("no range"));
    };
    let Ok(Some(behind)) = place_note(&table, &mut two, 2, &second, &long) else {
        return Err(Fail::new("no range"));
    };
    is_range(&rt, &range, 4, 6);
    is_range(&rt, &behind, 6, 9);
    is_at(
        &rt,
        "exposed, with a gap",
        release(&table, &mut two, behind, &long),
        4,
    );
    is_at(
        &rt,
        "exposed, with none",
        release(&table, &mut one, range, &short),
        9,
    );
    Ok(())
}

/// A look at the mark at the LSN in hand, and an exchange of exposed with that mark, which is lost:
/// answers the mark and the exposed found. None: there was no mark above, or exposed had not moved.
fn raise_late(table: &LogTable, seat: &mut Seat, at: Lsn) -> Option<(Lsn, Lsn)>
    requires own { IsOf table.now seat.old }
    requires hand { (view_of seat.old).call ≡ Holding at Nothing }
    ensures own { IsOf table.now seat.new }
    ensures hand { IfSome result (λ found. (view_of seat.new).call ≡ Holding found.1 Nothing) }
{
    let mark = table.load_mark(seat, at);
    if mark <= at {
        return None;
    }
    match table.exchange_exposed(seat, at, mark) {
        Ok(()) => None,
        Err(found) => Some((mark, found)),
    }
}

/// A seat that looked at exposed a whole ring ago finds the mark of a later lap, and that exposed has
/// moved; where exposed is now it finds no mark above.
fn finds_a_later_lap(
    rt: &impl Abort,
    table: &LogTable,
    seat: &mut Seat,
    at: Lsn,
) -> Result<(), Fail>
    requires own { IsOf table.now seat.old }
    requires hand { (view_of seat.old).call ≡ Holding at Nothing }
{
    let Some((mark, exposed)) = raise_late(table, seat, at) else {
        return Err(Fail::new("exposed had not moved"));
    };
    is_at(rt, "the later lap's mark", mark, 1030);
    is_at(rt, "exposed", exposed, 1032);
    is_at(rt, "the mark there", table.load_mark(seat, exposed), 10);
    Ok(())
}

#[test]
fn an_old_look_exposes_nothing(rt: HostRuntime) -> Result<(), Fail> {
    let alloc = rt.alloc();
    let (table, mut flusher_seat) = table_of(alloc, (100, 0), 4)?;
    let mut old = worker(&table, &mut flusher_seat, 0, 1);
    let mut other = worker(&table, &mut flusher_seat, 1, 2);
    let Some(job) = noted_job(b"aaaaaaaa") else {
        return Err(Fail::new("no job"));
    };
    let units = note_units(1, &job);
    let Ok(Some(range)) = place_note(&table, &mut old, 1, &job, &units) else {
        return Err(Fail::new("no range"));
    };
    mark(&table, &mut old, range, &units);
    let at = table.load_exposed(&mut old);
    is_at(&rt, "the old look", at, 4);
    insert_all(&table, &mut other, 2, 511, &job);
    let sent = send_all(alloc, &table, &mut flusher_seat, Lsn::new(4))?;
    is_at(&rt, "sent", sent.1, 1028);
    insert_all(&table, &mut other, 513, 2, &job);
    is_at(&rt, "tail", table.load_tail(&mut other), 1032);
    finds_a_later_lap(&rt, &table, &mut old, at)
}
