//! Joins: who is first leads, and a group gets a quarter of the ring.
ghost use Rattle.std.specs.Prelude.{◌≡◌, ◌≤◌, ◌+◌, IfOk};
ghost use Rattle.log_table.specs.HiredWorkers.{HasHired};
ghost use Rattle.test_rig.specs.NotedJobs.{IsNotedJob};

use crate::found::is_count;
use crate::group::join_for;
use consol_array::{Joined, NotJoined};
use lock_core::Job;
use log_table::{LogTable, Seat};
use slot_word::SlotWord;
use std::process::Abort;
use std::test::Fail;
use test_rig::{note_units, noted_job, table_with_slots, worker};

/// The worker of the next number joins for this note.
fn hired_joins(
    table: &LogTable,
    flusher_seat: &mut Seat,
    number: u32,
    job: &Job,
) -> Result<Joined, NotJoined>
    requires flusher_seat { HasHired table.now number flusher_seat.old }
    requires few { number ≤ 100 }
    requires slots { 1 ≤ table.now.slots }
    requires accounts { table.now.accounts ≡ 2 }
    requires job { IsNotedJob job.now }
    ensures flusher_seat { HasHired table.now (number + 1) flusher_seat.new }
{
    let mut seat = worker(table, flusher_seat, number, number + 1);
    let units = note_units(number + 1, job);
    join_for(table, &mut seat, number + 1, job, &units)
}

/// Nine workers join one after another, each with 26 units.
fn nine_join<R: Abort>(
    rt: &R,
    table: &LogTable,
    flusher_seat: &mut Seat,
    job: &Job,
) -> Result<(), Fail>
    requires flusher_seat { HasHired table.now 0 flusher_seat.old }
    requires slots { 1 ≤ table.now.slots }
    requires accounts { table.now.accounts ≡ 2 }
    requires job { IsNotedJob job.now }
    ensures flusher_seat { IfOk result (λ done. HasHired table.now 9 flusher_seat.new) }
{
    for i in 0..9 {
        let Ok(joined) = hired_joins(table, flusher_seat, i, job) else {
            return Err(Fail::new("a worker has not joined"));
        };
        is_count(rt, "offset", joined.offset, 26 * i);
    }
    Ok(())
}

#[test]
fn a_group_gets_a_quarter_of_the_ring(rt: HostRuntime) -> Result<(), Fail> {
    let (table, mut flusher_seat) = table_with_slots(rt.alloc(), (100, 0), 4, 1)?;
    let Some(job) = noted_job(&[97; 200]) else {
        return Err(Fail::new("no job"));
    };
    nine_join(&rt, &table, &mut flusher_seat, &job)?;
    let full = NotJoined {
        loaded: SlotWord::fresh(234),
        found: SlotWord::fresh(234),
    };
    let Err(answer) = hired_joins(&table, &mut flusher_seat, 9, &job) else {
        return Err(Fail::new("the tenth has joined"));
    };
    assert_eq!(&rt; answer, full);
    Ok(())
}
