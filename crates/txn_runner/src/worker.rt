//! A worker: the transfers that it takes of the queue, one after another.
ghost use Rattle.log_table.specs.Seats.{view_of};
ghost use Rattle.ring_buffer.specs.Calls.{IsSameWorker};
ghost use Rattle.txn_parts.specs.Desk.{IsAtWork, WorksOn, view_at, accounts_at};
ghost use Rattle.txn_runner.specs.Stages.{IsWorker, MayWork};
ghost use Rattle.txn_runner.specs.Working.{HasDone};

use crate::counting::Counting;
use crate::job::run_job;
use crate::taking::begin_job;
use arrayvec::ArrayVec;
use job_queue::{Queue, Rows};
use lock_core::Job;
use log_record::Units;
use log_table::{LogTable, Seat};
use schedule_hook::Gate;
use std::sync::Wait;
use txn_jobs::Worked;
use txn_parts::{Desk, Made, Numbered, Relief};

/// Takes one transfer after another of the queue, each the next one, and makes it, until the rows' pass takes its mark: then no transfer is
/// left for anyone. For each that ended there is a row, but for the last one where the worker waits and the log stops before it saw
/// that end durable. Behind a transfer that was cut off the worker takes no other, nor its mark. It waits: for other workers in the
/// queue, for accounts that they hold, in a group for its leader, for room in the ring, and, where asked, for the disk.
pub fn work<'a, R: Wait, Q: Relief, G: Gate>(
    rt: &'a R,
    table: &'a LogTable,
    seat: &'a mut Seat,
    queue: &Queue,
    rows: &mut Rows,
    relief: &'a mut Q,
    wait: bool,
    gate: &'a G,
) -> Worked
    requires worker { IsWorker Q.Relief table.now seat.old relief.old }
    requires may { MayWork table.now.accounts queue.now rows.old (view_of seat.old) }
    ensures worker { IsWorker Q.Relief table.now seat.new relief.new }
    ensures same { IsSameWorker seat.old seat.new }
    ensures later { Q.later relief.old relief.new }
    ensures done { HasDone queue.now wait result rows.old rows.new (view_of seat.old) (view_of seat.new) }
{
    let counting = Counting::new(gate);
    let mut desk = Desk {
        rt,
        table,
        seat,
        relief,
        gate: &counting,
        wait,
        made: Made::new(),
    };
    work_at(&mut desk, queue, rows, wait)
}

/// The work at this desk (`work`).
#[inline(always)]
fn work_at<R: Wait, Q: Relief, G: Gate>(
    desk: &mut Desk<'_, R, Q, Counting<'_, G>>,
    queue: &Queue,
    rows: &mut Rows,
    wait: bool,
) -> Worked
    requires work { IsAtWork Q.Relief desk.old }
    requires may { MayWork (accounts_at desk.old) queue.now rows.old (view_at desk.old) }
    ensures work { WorksOn Q.Relief desk.old desk.new }
    ensures done { HasDone queue.now wait result rows.old rows.new (view_at desk.old) (view_at desk.new) }
{
    // One place for all transfers, for the accounts of each, and for the units of each record, so that none is copied.
    let mut numbered = Numbered {
        number: 0,
        job: Job::new(),
    };
    let mut accounts = ArrayVec::new();
    let mut holdings = ArrayVec::new();
    let mut units = Units::new();
    let counting = desk.gate;
    'jobs: while let Some(stop) = begin_job(
        desk,
        queue,
        rows,
        &mut numbered,
        counting.take_lost(),
    ) {
        let made = run_job(
            desk,
            stop,
            &numbered,
            &mut accounts,
            &mut holdings,
            &mut units,
            wait,
        );
        if let Some(worked) = rows.tell(made) {
            return worked;
        }
    }
    Worked::All
}
