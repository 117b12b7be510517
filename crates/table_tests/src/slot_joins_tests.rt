//! Joins: what a worker finds at its slot.
ghost use Rattle.std.specs.Prelude.{◌≡◌, ◌+◌, ◌≤◌, ◌<◌, ◌%◌};
ghost use Rattle.log_table.specs.HiredWorkers.{HasHired};
ghost use Rattle.test_rig.specs.NotedJobs.{IsNotedJob};

use crate::found::is_count;
use crate::slot_found::has_joined;
use lock_core::Job;
use log_table::{LogTable, Seat};
use slot_rig::{NotJoined, Pair, Share, close, join_for_note, joiner, pair_of};
use slot_word::SlotWord;
use std::process::Abort;
use std::test::Fail;
use test_rig::{note_units, noted_job, table_with_slots};

/// The worker of the next number is hired, and joins at this slot, behind so many units, for this note.
fn hired_joins(
    table: &LogTable,
    flusher_seat: &mut Seat,
    worker: u32,
    place: (u32, u32),
    job: &Job,
) -> Result<(), NotJoined>
    requires flusher_seat { HasHired table.now worker flusher_seat.old }
    requires few { worker ≤ 100 }
    requires slot { (place.0 < table.now.slots) × (place.0 ≡ worker % table.now.slots) }
    requires accounts { table.now.accounts ≡ 2 }
    requires job { IsNotedJob job.now }
    ensures flusher_seat { HasHired table.now (worker + 1) flusher_seat.new }
{
    let mut seat = joiner(table, flusher_seat, worker, worker + 1);
    let share = Share {
        worker,
        slot: place.0,
        offset: place.1,
        units: note_units(worker + 1, job),
    };
    join_for_note(table, &mut seat, &share, worker + 1, job)
}

/// So many workers are hired from the first on, and join one after another at the only slot, each with 26 units.
fn nine_join<R: Abort>(rt: &R, table: &LogTable, flusher_seat: &mut Seat, job: &Job)
    requires flusher_seat { HasHired table.now 0 flusher_seat.old }
    requires slots { table.now.slots ≡ 1 }
    requires accounts { table.now.accounts ≡ 2 }
    requires job { IsNotedJob job.now }
    ensures flusher_seat { HasHired table.now 9 flusher_seat.new }
{
    for i in 0..9 {
        has_joined(
            rt,
            hired_joins(table, flusher_seat, i, (0, 26 * i), job),
            Ok(()),
        );
    }
}

#[test]
fn a_group_has_a_quarter_of_the_ring(rt: HostRuntime) -> Result<(), Fail> {
    let (table, mut flusher_seat) = table_with_slots(rt.alloc(), (100, 0), 4, 1)?;
    let (Some(long), Some(shorter), Some(short)) = (
        noted_job(&[97; 200]),
        noted_job(&[97; 168]),
        noted_job(b"a"),
    ) else {
        return Err(Fail::new("no job"));
    };
    nine_join(&rt, &table, &mut flusher_seat, &long);
    has_joined(
        &rt,
        hired_joins(&table, &mut flusher_seat, 9, (0, 234), &shorter),
        Ok(()),
    );
    has_joined(
        &rt,
        hired_joins(&table, &mut flusher_seat, 10, (0, 256), &short),
        Err(NotJoined::Full),
    );
    Ok(())
}

#[test]
fn a_join_after_the_close_finds_pending(rt: HostRuntime) -> Result<(), Fail> {
    let (table, flusher_seat) = table_with_slots(rt.alloc(), (100, 0), 4, 1)?;
    let Some(pair) = pair_of(&table, flusher_seat, 0, 1) else {
        return Err(Fail::new("no pair"));
    };
    let Pair {
        mut flusher_seat,
        mut one,
        ours,
        ..
    } = pair;
    is_count(&rt, "total", close(&table, &mut one, &ours), 5);
    let Some(job) = noted_job(b"a") else {
        return Err(Fail::new("no job"));
    };
    let late = hired_joins(&table, &mut flusher_seat, 2, (0, 5), &job);
    has_joined(&rt, late, Err(NotJoined::Found(SlotWord::pending())));
    Ok(())
}

/// Workers from one number to another are hired, and do nothing.
fn hire_up_to(table: &LogTable, flusher_seat: &mut Seat, from: u32, to: u32)
    requires flusher_seat { HasHired table.now from flusher_seat.old }
    requires within { (from ≤ to) × (to ≤ 100) }
    ensures flusher_seat { HasHired table.now to flusher_seat.new }
{
    for worker in from..to {
        joiner(table, flusher_seat, worker, 1);
    }
}

#[test]
fn two_workers_share_a_slot(rt: HostRuntime) -> Result<(), Fail> {
    let (table, mut flusher_seat) = table_with_slots(rt.alloc(), (100, 0), 4, 16)?;
    let Some(job) = noted_job(b"aaaaaaaa") else {
        return Err(Fail::new("no job"));
    };
    hire_up_to(&table, &mut flusher_seat, 0, 1);
    has_joined(
        &rt,
        hired_joins(&table, &mut flusher_seat, 1, (1, 0), &job),
        Ok(()),
    );
    hire_up_to(&table, &mut flusher_seat, 2, 17);
    has_joined(
        &rt,
        hired_joins(&table, &mut flusher_seat, 17, (1, 2), &job),
        Ok(()),
    );
    Ok(())
}
