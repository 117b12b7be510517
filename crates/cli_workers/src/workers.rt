//! Workers of a run, and how each is made.
ghost use Rattle.std.specs.Prelude.{◌≡◌, ◌+◌, ◌<◌, [], IfOk, OnOk, length};
ghost use Rattle.log_table.specs.HiredWorkers.{HasHired};
ghost use Rattle.job_queue.specs.Passes.{HasFirstPass, marks_back, passes_out, workers_of};
ghost use Rattle.cli_workers.specs.Workers.{HandsOut, HiresAll, IsUnused};

use crate::reserving::room_for;
use log_table::{LogTable, Seat};
use lsn_space::NoMemory;
use std::alloc::Global;
use txn_runner::{Jobs, Rows, Worked};

/// A worker: its seat, its rows with their pass of the queue, and what its work came to, where it was done.
#[derive(Drop)]
pub struct Worker {
    pub seat: Seat,
    pub rows: Rows,
    pub worked: Option<Worked>,
}

/// The worker of the next number, enlisted: its rows have a pass, and room for all transfers. It is enrolled, and the flusher's seat
/// knows that.
fn hire(
    alloc: Global,
    table: &LogTable,
    flusher_seat: &mut Seat,
    jobs: &mut Jobs,
    number: u32,
) -> Result<Worker, NoMemory>
    requires flusher_seat { HasHired table.now number flusher_seat.old }
    requires jobs { HasFirstPass jobs.old }
    requires mark { passes_out jobs.old + length (marks_back jobs.old) < workers_of jobs.old }
    ensures flusher_seat { OnOk result (HasHired table.now (number + 1) flusher_seat.new) }
    ensures jobs { HasFirstPass jobs.new }
    ensures out { OnOk result (HandsOut 1 jobs.old jobs.new) }
    ensures number { IfOk result (λ worker. worker.seat.worker ≡ number) }
    ensures unused { IfOk result (IsUnused table.now jobs.new.queue) }
{
    let mut rows = Rows::make(alloc, jobs.count() as u32)?;
    jobs.enlist(alloc, &mut rows)?;
    Ok(Worker {
        seat: table.hire(flusher_seat, number),
        rows,
        worked: None,
    })
}

/// All workers of a run, so many, in the order of their numbers.
pub fn hire_all(
    alloc: Global,
    table: &LogTable,
    flusher_seat: &mut Seat,
    jobs: &mut Jobs,
    count: u32,
) -> Result<Vec<Worker>, NoMemory>
    requires flusher_seat { HasHired table.now 0 flusher_seat.old }
    requires jobs { HasFirstPass jobs.old }
    requires fresh { (passes_out jobs.old ≡ 0) × (marks_back jobs.old ≡ []) }
    requires count { count ≡ workers_of jobs.old }
    ensures { IfOk result (HiresAll table.now count flusher_seat.new jobs.old jobs.new) }
{
    let mut workers = room_for(alloc, count)?;
    for number in 0..count {
        workers.push_reserved(hire(alloc, table, flusher_seat, jobs, number)?);
    }
    Ok(workers)
}
