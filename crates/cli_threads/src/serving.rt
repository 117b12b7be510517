//! The life of a worker, in a thread of its own or, where none can be made, in this one.
ghost use Rattle.std.specs.Prelude.{◌≡◌, ◌<◌, ◌≤◌, [], All, length, vec_len, vec_capacity};
ghost use Rattle.lock_core.specs.Transfers.{IsAllowedJob};
ghost use Rattle.cli_workers.specs.Workers.{IsHired, IsUnused};
ghost use Rattle.cli_threads.specs.Workers.{AreDone, AreStarted, ComesBack, IsStarted, MayStartAll, Serves, number_of};

use cli_workers::{Run, Worker};
use log_disk::Gate;
use log_table::LogTable;
use std::snapshot::Snapshot;
use std::sync::Wait;
use std::sync::atomic::Ordering;
use std::thread::{Promise, PromisedHandle, Scope, Threads};
use std::time::Clock;
use txn_runner::{Queue, Relief, YieldRelief, work};

/// What a worker's thread brings: the worker of this number, which served or is as it was hired.
#[derive(Drop)]
pub(crate) struct Comes {
    table: Snapshot<LogTable>,
    queue: Snapshot<Queue>,
    wait: bool,
    number: u32,
}

impl Promise<Worker> for Comes {
    ghost kept_by = { λ p worker. (worker.seat.worker ≡ p.number) × ComesBack p.table.value p.queue.value p.wait worker };
}

/// A worker in a thread of its own, or one that had none.
#[derive(Drop)]
pub(crate) enum Started {
    Running(PromisedHandle<Worker, Comes>),
    NoThread(Worker),
}

/// A worker's whole life: its work, and its end.
fn serve<'a, R: Wait, G: Gate, Q: Relief>(
    run: &Run<'a, R, G>,
    worker: Worker,
    relief: &mut Q,
) -> Worker
    requires hired { IsHired run.now.table.now run.now.queue.now worker }
    requires relief { Q.ready relief.old }
    ensures { Serves Q.Relief run.now.table.now run.now.queue.now run.now.wait worker.seat.worker result relief.old relief.new }
{
    let wait = run.waits();
    let Worker {
        mut seat,
        mut rows,
        ..
    } = worker;
    let worked = work(
        run.rt, run.table, &mut seat, run.queue, &mut rows, relief, wait, run.gate,
    );
    run.table.leave(&mut seat);
    Worker {
        seat,
        rows,
        worked: Some(worked),
    }
}

/// The worker once it served: here, with this relief, where it did not yet.
fn finish<'a, R: Wait, G: Gate, Q: Relief>(
    run: &Run<'a, R, G>,
    worker: Worker,
    relief: &mut Q,
) -> Worker
    requires comes { ComesBack run.now.table.now run.now.queue.now run.now.wait worker }
    requires relief { Q.ready relief.old }
    ensures { Serves Q.Relief run.now.table.now run.now.queue.now run.now.wait worker.seat.worker result relief.old relief.new }
{
    if worker.worked.is_some() {
        return worker;
    }
    serve(run, worker, relief)
}

/// Starts a thread for the worker. Where none can be made, the worker is served here, with this relief.
fn start<'a, R: Threads + Wait + Clock + Sync, G: Gate + Sync, E, Q: Relief>(
    run: &Run<'a, R, G>,
    scope: &Scope<'a, E>,
    worker: Worker,
    relief: &mut Q,
) -> Started
    requires unused { IsUnused run.now.table.now run.now.queue.now worker }
    requires flag { worker.seat.worker < length run.now.refused.now }
    requires relief { Q.ready relief.old }
    ensures number { number_of result ≡ worker.seat.worker }
    ensures started { IsStarted run.now.table.now run.now.queue.now run.now.wait result }
    ensures relief { Q.ready relief.new }
    ensures later { Q.later relief.old relief.new }
{
    let Run {
        rt,
        table,
        queue,
        refused,
        wait,
        gate,
    } = *run;
    let number = worker.seat.worker();
    let flag = &refused[number as usize];
    let promise = Comes {
        table: Snapshot::of(table),
        queue: Snapshot::of(queue),
        wait,
        number,
    };
    match scope.spawn_with(
        promise,
        move || -> Worker
            requires allowed { All (IsAllowedJob table.now.accounts) queue.now.script }
            requires unused { IsUnused table.now queue.now worker }
            ensures number { result.seat.worker ≡ worker.seat.worker }
            ensures comes { ComesBack table.entry.now queue.entry.now wait result }
        {
            // Set where no thread can be made, and this is called to have the worker back.
            if flag.load(Ordering::SeqCst) {
                return worker;
            }
            let run = Run {
                rt,
                table,
                queue,
                refused,
                wait,
                gate,
            };
            serve(&run, worker, &mut YieldRelief::new(rt))
        },
    ) {
        Ok(child) => Started::Running(child),
        Err(start) => {
            flag.store(true, Ordering::SeqCst);
            let worker = (start.value)();
            Started::NoThread(finish(run, worker, relief))
        }
    }
}

/// Starts all workers, in the order of their numbers.
pub(crate) fn start_all<'a, R: Threads + Wait + Clock + Sync, G: Gate + Sync, E, Q: Relief>(
    run: &Run<'a, R, G>,
    scope: &Scope<'a, E>,
    workers: Vec<Worker>,
    mut started: Vec<Started>,
    relief: &mut Q,
) -> Vec<Started>
    requires hands { MayStartAll run.now.table.now run.now.queue.now (length run.now.refused.now) workers started }
    requires relief { Q.ready relief.old }
    ensures started { AreStarted run.now.table.now run.now.queue.now run.now.wait result.items }
    ensures count { vec_len result ≡ vec_len workers }
    ensures relief { Q.ready relief.new }
    ensures later { Q.later relief.old relief.new }
{
    for worker in workers {
        started.push_reserved(start(run, scope, worker, relief));
    }
    started
}

/// Waits for the worker, and answers it once it served. Where it comes back as it was hired it is served here, with this relief.
fn join<'a, R: Threads + Wait + Sync, G: Gate + Sync, Q: Relief>(
    run: &Run<'a, R, G>,
    started: Started,
    relief: &mut Q,
) -> Worker
    requires started { IsStarted run.now.table.now run.now.queue.now run.now.wait started }
    requires relief { Q.ready relief.old }
    ensures { Serves Q.Relief run.now.table.now run.now.queue.now run.now.wait (number_of started) result relief.old relief.new }
{
    let worker = match started {
        Started::Running(child) => child.join(run.rt),
        Started::NoThread(worker) => worker,
    };
    finish(run, worker, relief)
}

/// Waits for all workers, and answers them in the order of their numbers.
pub(crate) fn join_all<'a, R: Threads + Wait + Sync, G: Gate + Sync, Q: Relief>(
    run: &Run<'a, R, G>,
    started: Vec<Started>,
    mut back: Vec<Worker>,
    relief: &mut Q,
) -> Vec<Worker>
    requires started { AreStarted run.now.table.now run.now.queue.now run.now.wait started.items }
    requires none { back.items ≡ [] }
    requires room { vec_len started ≤ vec_capacity back }
    requires relief { Q.ready relief.old }
    ensures done { AreDone run.now.table.now run.now.queue.now run.now.wait result.items }
    ensures count { vec_len result ≡ vec_len started }
    ensures relief { Q.ready relief.new }
    ensures later { Q.later relief.old relief.new }
{
    for one in started {
        back.push_reserved(join(run, one, relief));
    }
    back
}
