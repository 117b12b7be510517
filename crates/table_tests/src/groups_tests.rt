//! Groups on one thread: placed, released in both orders, of one member, and refused.
ghost use Rattle.std.specs.Prelude.{◌≡◌, ◌≤◌, ◌+◌, ◌<◌, ℕ, IfOk};
ghost use Rattle.log_record.specs.Spelling.{IsTxn};
ghost use Rattle.log_table.specs.HiredWorkers.{HasHired};
ghost use Rattle.log_table.specs.Seats.{IsOf, view_of};
ghost use Rattle.log_rule.specs.SlotViews.{step_joining};
ghost use Rattle.consol_array.specs.Members.{HasPiece};
ghost use Rattle.table_tests.specs.Shares.{GoesOn, HasShare};
ghost use Rattle.test_rig.specs.NotedJobs.{IsNotedJob, MayInsert};

use crate::found::{is_at, is_count, is_so};
use crate::group::{hear_piece, join_for, lead_if_first, leave_refused, put_piece};
use consol_array::{Joined, Member};
use lock_core::Job;
use log_record::Units;
use log_table::{LogTable, Seat};
use lsn_space::Lsn;
use ring_buffer::{Refused, expose, fill, finish};
use std::process::Abort;
use std::sync::Wait;
use std::test::Fail;
use test_rig::{note_units, noted_job, place_note, table_with_slots, worker};

/// A worker that has joined, with the units of its note.
#[derive(Drop)]
struct Sharer {
    seat: Seat,
    joined: Joined,
    units: Units,
}

/// The worker of the next number joins for a note of these letters, behind so many units.
fn joins<R: Abort>(
    rt: &R,
    table: &LogTable,
    flusher_seat: &mut Seat,
    number: u32,
    letters: &[u8],
    offset: u32,
) -> Result<Sharer, Fail>
    requires flusher_seat { HasHired table.now number flusher_seat.old }
    requires few { number ≤ 1000 }
    requires slots { 1 ≤ table.now.slots }
    requires accounts { table.now.accounts ≡ 2 }
    ensures flusher_seat { IfOk result (λ sharer. HasHired table.now (number + 1) flusher_seat.new) }
    ensures own { IfOk result (λ sharer. IsOf table.now sharer.seat) }
    ensures share { IfOk result (λ sharer. HasShare table.now sharer.joined sharer.units (step_joining sharer.joined.offset) sharer.seat) }
    ensures goes_on { IfOk result (λ sharer. (next : ℕ) → number + 1 < next → GoesOn next (view_of sharer.seat)) }
{
    let mut seat = worker(table, flusher_seat, number, number + 1);
    let Some(job) = noted_job(letters) else {
        return Err(Fail::new("no job"));
    };
    let units = note_units(number + 1, &job);
    let Ok(joined) = join_for(table, &mut seat, number + 1, &job, &units) else {
        return Err(Fail::new("the worker has not joined"));
    };
    is_count(rt, "offset", joined.offset, offset);
    Ok(Sharer {
        seat,
        joined,
        units,
    })
}

/// A worker that has heard where its piece lies.
#[derive(Drop)]
struct Placed {
    seat: Seat,
    member: Member,
    units: Units,
}

/// The member hears that its record begins there.
fn hears<R: Abort + Wait>(rt: &R, table: &LogTable, sharer: Sharer, at: u32) -> Result<Placed, Fail>
    requires own { IsOf table.now sharer.seat }
    requires share { HasShare table.now sharer.joined sharer.units (step_joining sharer.joined.offset) sharer.seat }
    ensures own { IfOk result (λ placed. IsOf table.now placed.seat) }
    ensures piece { IfOk result (λ placed. HasPiece table.now placed.member placed.units (view_of placed.seat)) }
    ensures goes_on { IfOk result (λ placed. (next : ℕ) → GoesOn next (view_of sharer.seat) → GoesOn next (view_of placed.seat)) }
{
    let Sharer {
        mut seat,
        joined,
        units,
    } = sharer;
    lead_if_first(table, &mut seat, &joined, &units);
    let Ok(member) = hear_piece(rt, table, &mut seat, joined, &units) else {
        return Err(Fail::new("the group was refused"));
    };
    is_at(rt, "the piece", member.at, at);
    Ok(Placed {
        seat,
        member,
        units,
    })
}

/// The member fills its piece and releases it, as the last one or not.
fn puts<R: Abort>(rt: &R, table: &LogTable, placed: Placed, at: u32, last: bool) -> Seat
    requires own { IsOf table.now placed.seat }
    requires piece { HasPiece table.now placed.member placed.units (view_of placed.seat) }
    ensures own { IsOf table.now result }
    ensures may { (next : ℕ) → IsTxn next → GoesOn next (view_of placed.seat) → MayInsert table.now next result }
{
    let Placed {
        mut seat,
        member,
        units,
    } = placed;
    let released = put_piece(table, &mut seat, member, &units);
    is_at(rt, "the record", released.at, at);
    is_so(rt, "the last to release", released.last, last);
    seat
}

/// Two workers share a group of five units, which is placed behind 4; the one or the other releases first.
fn releases_in_turn<R: Abort + Wait>(
    rt: &R,
    table: &LogTable,
    flusher_seat: &mut Seat,
    leader_first: bool,
) -> Result<(), Fail>
    requires flusher_seat { HasHired table.now 0 flusher_seat.old }
    requires slots { 1 ≤ table.now.slots }
    requires accounts { table.now.accounts ≡ 2 }
{
    let first = joins(rt, table, flusher_seat, 0, b"aaaaaaaa", 0)?;
    let second = joins(rt, table, flusher_seat, 1, b"bbbbbbbbb", 2)?;
    let first = hears(rt, table, first, 4)?;
    let second = hears(rt, table, second, 6)?;
    let mut seat = if leader_first {
        puts(rt, table, first, 4, false);
        puts(rt, table, second, 6, true)
    } else {
        puts(rt, table, second, 6, false);
        puts(rt, table, first, 4, true)
    };
    is_at(rt, "tail", table.load_tail(&mut seat), 9);
    is_at(rt, "exposed", table.load_exposed(&mut seat), 9);
    let after = table.load_slot(&mut seat, 0);
    is_count(rt, "the slot's total", after.total(), 0);
    Ok(())
}

#[test]
fn the_last_to_release_exposes(rt: HostRuntime) -> Result<(), Fail> {
    for leader_first in [true, false] {
        let (table, mut flusher_seat) = table_with_slots(rt.alloc(), (100, 0), 4, 1)?;
        releases_in_turn(&rt, &table, &mut flusher_seat, leader_first)?;
    }
    Ok(())
}

#[test]
fn a_group_of_one_goes_on(rt: HostRuntime) -> Result<(), Fail> {
    let (table, mut flusher_seat) = table_with_slots(rt.alloc(), (100, 0), 4, 1)?;
    let only = joins(&rt, &table, &mut flusher_seat, 0, b"aaaaaaaa", 0)?;
    let only = hears(&rt, &table, only, 4)?;
    puts(&rt, &table, only, 4, true);
    let next = joins(&rt, &table, &mut flusher_seat, 1, b"bbbbbbbbb", 0)?;
    let next = hears(&rt, &table, next, 6)?;
    puts(&rt, &table, next, 6, true);
    Ok(())
}

/// Inserts a note of this number alone, which begins there.
fn inserts_alone<R: Abort>(
    rt: &R,
    table: &LogTable,
    seat: &mut Seat,
    number: u32,
    job: &Job,
    at: u32,
) -> Result<(), Fail>
    requires worker { MayInsert table.now number seat.old }
    requires accounts { table.now.accounts ≡ 2 }
    requires job { IsNotedJob job.now }
    ensures own { IfOk result (λ done. IsOf table.now seat.new) }
{
    let units = note_units(number, job);
    let Ok(Some(range)) = place_note(table, seat, number, job, &units) else {
        return Err(Fail::new("a note has no room"));
    };
    is_at(rt, "the note", range.start(), at);
    let filled = fill(table, seat, range, &units);
    finish(table, seat, filled);
    expose(table, seat);
    Ok(())
}

/// The first of a group releases, inserts a note of two units alone behind its group, and waits for nobody: the other, which releases
/// then, exposes both.
fn first_goes_on<R: Abort + Wait>(
    rt: &R,
    table: &LogTable,
    flusher_seat: &mut Seat,
    job: &Job,
) -> Result<(), Fail>
    requires flusher_seat { HasHired table.now 0 flusher_seat.old }
    requires slots { 1 ≤ table.now.slots }
    requires accounts { table.now.accounts ≡ 2 }
    requires job { IsNotedJob job.now }
{
    let first = joins(rt, table, flusher_seat, 0, b"aaaaaaaa", 0)?;
    let second = joins(rt, table, flusher_seat, 1, b"bbbbbbbbb", 2)?;
    let first = hears(rt, table, first, 4)?;
    let second = hears(rt, table, second, 6)?;
    let mut ahead = puts(rt, table, first, 4, false);
    inserts_alone(rt, table, &mut ahead, 3, job, 9)?;
    is_at(rt, "exposed before", table.load_exposed(&mut ahead), 4);
    let mut seat = puts(rt, table, second, 6, true);
    is_at(rt, "tail", table.load_tail(&mut seat), 11);
    is_at(rt, "exposed", table.load_exposed(&mut seat), 11);
    Ok(())
}

#[test]
fn the_first_goes_on_before_its_group_is_exposed(rt: HostRuntime) -> Result<(), Fail> {
    let (table, mut flusher_seat) = table_with_slots(rt.alloc(), (100, 0), 4, 1)?;
    let Some(job) = noted_job(b"cccccccc") else {
        return Err(Fail::new("no job"));
    };
    first_goes_on(&rt, &table, &mut flusher_seat, &job)
}

/// 256 workers fill the ring, which nobody flushes: each inserts a note of four units, exposes it and is let go.
fn fill_ring<R: Abort>(
    rt: &R,
    table: &LogTable,
    flusher_seat: &mut Seat,
    job: &Job,
) -> Result<(), Fail>
    requires flusher_seat { HasHired table.now 0 flusher_seat.old }
    requires accounts { table.now.accounts ≡ 2 }
    requires job { IsNotedJob job.now }
    ensures flusher_seat { IfOk result (λ done. HasHired table.now 256 flusher_seat.new) }
{
    for i in 0..256 {
        let mut seat = worker(table, flusher_seat, i, i + 1);
        inserts_alone(rt, table, &mut seat, i + 1, job, 4 + 4 * i)?;
    }
    Ok(())
}

/// The member hears that its group was refused so, and leaves, as the last one or not. Answers its seat.
fn is_turned_away<R: Abort + Wait>(
    rt: &R,
    table: &LogTable,
    sharer: Sharer,
    wanted: &Refused,
    last: bool,
) -> Result<Seat, Fail>
    requires own { IsOf table.now sharer.seat }
    requires share { HasShare table.now sharer.joined sharer.units (step_joining sharer.joined.offset) sharer.seat }
    ensures may { IfOk result (λ seat. (next : ℕ) → IsTxn next → GoesOn next (view_of sharer.seat) → MayInsert table.now next seat) }
{
    let Sharer {
        mut seat,
        joined,
        units,
    } = sharer;
    lead_if_first(table, &mut seat, &joined, &units);
    let Err((refused, leaver)) = hear_piece(rt, table, &mut seat, joined, &units) else {
        return Err(Fail::new("the group has room"));
    };
    assert!(rt; refused == *wanted, "{refused:?}");
    is_so(
        rt,
        "the last to leave",
        leave_refused(table, &mut seat, leaver),
        last,
    );
    Ok(seat)
}

#[test]
fn a_group_is_refused_with_its_own_numbers(rt: HostRuntime) -> Result<(), Fail> {
    let (table, mut flusher_seat) = table_with_slots(rt.alloc(), (100, 0), 4, 1)?;
    let Some(job) = noted_job(&[97; 24]) else {
        return Err(Fail::new("no job"));
    };
    fill_ring(&rt, &table, &mut flusher_seat, &job)?;
    let first = joins(&rt, &table, &mut flusher_seat, 256, b"aaaaaaaa", 0)?;
    let second = joins(&rt, &table, &mut flusher_seat, 257, b"bbbbbbbbb", 2)?;
    let full = Refused::RingFull {
        tail: Lsn::new(1028),
        durable: Lsn::new(4),
        total: 5,
    };
    is_turned_away(&rt, &table, first, &full, false)?;
    is_turned_away(&rt, &table, second, &full, true)?;
    joins(&rt, &table, &mut flusher_seat, 258, b"aaaaaaaa", 0)?;
    Ok(())
}

/// Three units before the last LSN.
const NEAR_THE_END: u32 = 4294967292;

/// Two workers share a group of five units, for which the log has no LSNs left; once both have left, the first inserts a note of two
/// units alone.
fn first_goes_on_alone<R: Abort + Wait>(
    rt: &R,
    table: &LogTable,
    flusher_seat: &mut Seat,
    job: &Job,
) -> Result<(), Fail>
    requires flusher_seat { HasHired table.now 0 flusher_seat.old }
    requires slots { 1 ≤ table.now.slots }
    requires accounts { table.now.accounts ≡ 2 }
    requires job { IsNotedJob job.now }
{
    let first = joins(rt, table, flusher_seat, 0, b"aaaaaaaa", 0)?;
    let second = joins(rt, table, flusher_seat, 1, b"bbbbbbbbb", 2)?;
    let end = Refused::LogEnd {
        tail: Lsn::new(NEAR_THE_END),
        total: 5,
    };
    let mut alone = is_turned_away(rt, table, first, &end, false)?;
    is_turned_away(rt, table, second, &end, true)?;
    inserts_alone(rt, table, &mut alone, 3, job, NEAR_THE_END)?;
    is_at(rt, "tail", table.load_tail(&mut alone), NEAR_THE_END + 2);
    is_at(
        rt,
        "exposed",
        table.load_exposed(&mut alone),
        NEAR_THE_END + 2,
    );
    Ok(())
}

#[test]
fn a_group_is_refused_at_the_end_of_the_log(rt: HostRuntime) -> Result<(), Fail> {
    let (table, mut flusher_seat) = table_with_slots(rt.alloc(), (100, 0), NEAR_THE_END, 1)?;
    let Some(job) = noted_job(b"cccccccc") else {
        return Err(Fail::new("no job"));
    };
    first_goes_on_alone(&rt, &table, &mut flusher_seat, &job)
}
