//! A group for which the ring has no room: its members hear why, and the last to let go opens the slot again.
ghost use Rattle.std.specs.Prelude.{◌≡◌, ◌+◌, ◌≤◌, IfOk};
ghost use Rattle.log_rule.specs.declared.group_view.MemberStep.TheVariants.{Waits};
ghost use Rattle.log_rule.specs.declared.view.Call.TheVariants.{Idle};
ghost use Rattle.log_table.specs.HiredWorkers.{HasHired};
ghost use Rattle.test_rig.specs.NotedJobs.{IsNotedJob};
ghost use Rattle.slot_rig.specs.Shares.{HasLeft, IsMember};

use crate::found::{is_at, is_count};
use crate::slot_found::{has_joined, is_refusal};
use lock_core::Job;
use log_table::{LogTable, Seat};
use slot_rig::{
    Pair, Share, hear_refusal, join_for_note, joiner, lead_without_room, leave_refused, pair_of,
};
use std::process::Abort;
use std::test::Fail;
use test_rig::{note_units, noted_job, place_note, table_with_slots, worker};

/// The worker of the next number is hired, and reserves for this note, up to there.
fn hired_reserves<R: Abort>(
    rt: &R,
    table: &LogTable,
    flusher_seat: &mut Seat,
    number: u32,
    job: &Job,
    end: u32,
) -> Result<(), Fail>
    requires flusher_seat { HasHired table.now number flusher_seat.old }
    requires few { number ≤ 100 }
    requires accounts { table.now.accounts ≡ 2 }
    requires job { IsNotedJob job.now }
    ensures flusher_seat { HasHired table.now (number + 1) flusher_seat.new }
{
    let mut seat = worker(table, flusher_seat, number, number + 1);
    let units = note_units(number + 1, job);
    let Ok(Some(range)) = place_note(table, &mut seat, number + 1, job, &units) else {
        return Err(Fail::new("no room"));
    };
    is_at(rt, "the end of the run", range.end(), end);
    Ok(())
}

/// Forty workers reserve the whole ring: 39 with the longest note, of 26 units, and one with a note of ten.
fn reserve_ring<R: Abort>(rt: &R, table: &LogTable, flusher_seat: &mut Seat) -> Result<(), Fail>
    requires flusher_seat { HasHired table.now 0 flusher_seat.old }
    requires accounts { table.now.accounts ≡ 2 }
    ensures flusher_seat { IfOk result (λ done. HasHired table.now 40 flusher_seat.new) }
{
    let (Some(long), Some(short)) = (noted_job(&[97; 200]), noted_job(&[97; 72])) else {
        return Err(Fail::new("no job"));
    };
    for i in 0..39 {
        hired_reserves(rt, table, flusher_seat, i, &long, 30 + 26 * i)?;
    }
    hired_reserves(rt, table, flusher_seat, 39, &short, 1028)
}

/// The member hears that its group was refused, and releases, where so much remained.
fn hears_and_leaves<R: Abort>(
    rt: &R,
    table: &LogTable,
    seat: &mut Seat,
    share: &Share,
    remaining: u32,
) -> Result<(), Fail>
    requires waits { IsMember table.now share.now Waits seat.old }
    ensures left { IfOk result (λ done. HasLeft table.now share.now Idle seat.new) }
{
    let Some(refusal) = hear_refusal(table, seat, share) else {
        return Err(Fail::new("no refusal was heard"));
    };
    is_refusal(rt, &refusal, 1028, 4);
    is_count(
        rt,
        "remaining",
        leave_refused(table, seat, share, &refusal),
        remaining,
    );
    Ok(())
}

#[test]
fn a_group_is_refused_by_a_full_ring(rt: HostRuntime) -> Result<(), Fail> {
    let (table, mut flusher_seat) = table_with_slots(rt.alloc(), (100, 0), 4, 1)?;
    reserve_ring(&rt, &table, &mut flusher_seat)?;
    let Some(pair) = pair_of(&table, flusher_seat, 40, 41) else {
        return Err(Fail::new("no pair"));
    };
    let Pair {
        mut flusher_seat,
        mut one,
        mut two,
        ours,
        theirs,
    } = pair;
    let Some(refusal) = lead_without_room(&table, &mut one, &ours) else {
        return Err(Fail::new("the group has room"));
    };
    is_refusal(&rt, &refusal, 1028, 4);
    hears_and_leaves(&rt, &table, &mut one, &ours, 5)?;
    hears_and_leaves(&rt, &table, &mut two, &theirs, 3)?;
    joins_first(&rt, &table, &mut flusher_seat)
}

/// A further worker is the first at the slot.
fn joins_first<R: Abort>(rt: &R, table: &LogTable, flusher_seat: &mut Seat) -> Result<(), Fail>
    requires flusher_seat { HasHired table.now 42 flusher_seat.old }
    requires slots { table.now.slots ≡ 1 }
    requires accounts { table.now.accounts ≡ 2 }
{
    let mut seat = joiner(table, flusher_seat, 42, 43);
    let Some(job) = noted_job(b"aaaaaaaa") else {
        return Err(Fail::new("no job"));
    };
    let share = Share {
        worker: 42,
        slot: 0,
        offset: 0,
        units: note_units(43, &job),
    };
    has_joined(
        rt,
        join_for_note(table, &mut seat, &share, 43, &job),
        Ok(()),
    );
    Ok(())
}
