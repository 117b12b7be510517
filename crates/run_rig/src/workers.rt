//! Scripts in a queue, rows that have a pass of it, and a worker that takes from it.
ghost use Rattle.std.specs.Prelude.{◌≤◌, ◌<◌, [], IfOk, IfSome};
ghost use Rattle.job_queue.specs.Passes.{workers_of};
ghost use Rattle.log_table.specs.Seats.{view_of};
ghost use Rattle.txn_runner.specs.Working.{EndsByMark, Works, jobs_of, places_in};
ghost use Rattle.run_rig.specs.Enlisted.{AllowsAll, AreFreshJobs, Enlists, HasEnlisted, IsEnlisted};
ghost use Rattle.run_rig.specs.Queued.{WorksQueue};
ghost use Rattle.test_rig.specs.NotedJobs.{IsNew};

use log_table::{LogTable, Seat};
use lsn_space::NoMemory;
use schedule_hook::Gate;
use std::alloc::Global;
use std::sync::Wait;
use test_rig::job_of;
use txn_runner::{Jobs, Queue, Relief, Rows, Worked, work};
use txn_script::{Script, parse};

/// The transfers of the text, numbered from 1, for so many workers, none of which is enlisted.
pub fn jobs_of<R: Wait>(rt: &R, alloc: Global, text: &[u8], workers: u32) -> Option<Jobs>
    requires workers { 1 ≤ workers }
    ensures { IfSome result (AreFreshJobs workers) }
{
    let Ok(script) = parse(alloc, text, 2) else {
        return None;
    };
    if script.count() > 1000 {
        return None;
    }
    Jobs::make(rt, alloc, script, 1, workers).ok()
}

/// So many transfers of 30 from account 0 to account 1, at most 1000, numbered from 1, for so many workers, none of which is
/// enlisted.
pub fn thirties<R: Wait>(rt: &R, alloc: Global, times: u32, workers: u32) -> Option<Jobs>
    requires workers { 1 ≤ workers }
    ensures { IfSome result (AreFreshJobs workers) }
{
    let mut script = Script::with_room(alloc, times).ok()?;
    for _ in 0..times {
        script.push(job_of(30)).ok()?;
    }
    if script.count() > 1000 {
        return None;
    }
    Jobs::make(rt, alloc, script, 1, workers).ok()
}

/// Rows of the worker of this number: room for all transfers, and a pass.
pub fn enlisted(alloc: Global, jobs: &mut Jobs, number: u32) -> Result<Rows, NoMemory>
    requires jobs { HasEnlisted number jobs.old }
    requires mark { number < workers_of jobs.old }
    ensures { IfOk result (Enlists number jobs.old jobs.new) }
{
    let mut rows = Rows::make(alloc, jobs.count() as u32)?;
    jobs.enlist(alloc, &mut rows)?;
    Ok(rows)
}

/// A new worker makes the transfers that it takes of the queue. Answers how its work ended.
pub fn work_queue<R: Wait, Q: Relief, G: Gate>(
    rt: &R,
    table: &LogTable,
    seat: &mut Seat,
    queue: &Queue,
    rows: &mut Rows,
    relief: &mut Q,
    wait: bool,
    gate: &G,
) -> Worked
    requires unused { IsNew table.now seat.old }
    requires rows { IsEnlisted queue.now rows.old }
    requires allowed { AllowsAll table.now queue.now }
    requires relief { Q.ready relief.old }
    ensures { WorksQueue queue.now table.now seat.old seat.new rows.new
        (Works (jobs_of queue.now) [] (places_in rows.new) wait result (view_of seat.new)) (EndsByMark result rows.new) (Q.ready relief.new) }
{
    work(rt, table, seat, queue, rows, relief, wait, gate)
}
