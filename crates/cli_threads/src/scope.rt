//! The workers in their threads, and the daemon beside them.
ghost use Rattle.std.specs.Prelude.{◌≡◌, None, true, length, vec_len};
ghost use Rattle.log_table.specs.Seats.{view_of};
ghost use Rattle.log_rule.specs.Sends.{IsDrained};
ghost use Rattle.log_rule.specs.Views.{knows_all_enrolled};
ghost use Rattle.commit_pipeline.specs.Later.{Later};
ghost use Rattle.commit_pipeline.specs.Turning.{MayTurn};
ghost use Rattle.cli_threads.specs.Serving.{MayServeAll, ServesAll};

use crate::serving::{Started, join_all, start_all};
use cli_workers::{FlushingRelief, Run, Worker};
use commit_pipeline::Daemon;
use log_disk::{Gate, LogDisk, Sink};
use std::sync::Wait;
use std::thread;
use std::thread::Threads;
use std::time::Clock;

/// Turns until the log is drained, where nothing befell the daemon yet.
fn drain<'a, R: Wait + Clock, D: LogDisk, K: Sink>(rt: &R, daemon: &mut Daemon<'a, D, K>)
    requires ready { daemon.old.fault ≡ None → MayTurn D.LogDisk daemon.old }
    requires told { knows_all_enrolled (view_of daemon.old.flusher.seat).standing ≡ true }
    ensures ready { daemon.new.fault ≡ None → MayTurn D.LogDisk daemon.new }
    ensures drained { daemon.new.fault ≡ None → IsDrained (view_of daemon.new.flusher.seat) }
    ensures later { Later D.LogDisk K.Sink daemon.old daemon.new }
{
    if daemon.fault().is_none() {
        let _ = daemon.run_until_drained(rt);
    }
}

/// Starts all workers, and is the daemon until all of them have served.
pub(crate) fn serve_all<
    'a,
    'b,
    'c,
    R: Threads + Wait + Clock + Sync,
    D: LogDisk,
    K: Sink,
    G: Gate + Sync,
>(
    run: Run<'b, R, G>,
    workers: Vec<Worker>,
    started: Vec<Started>,
    back: Vec<Worker>,
    relief: &'c mut FlushingRelief<'a, D, K>,
) -> (&'c mut FlushingRelief<'a, D, K>, Vec<Worker>)
    requires hands { MayServeAll run.table.now run.queue.now (length run.refused.now) workers started back relief.old.daemon }
    requires told { knows_all_enrolled (view_of relief.old.daemon.flusher.seat).standing ≡ true }
    ensures served { ServesAll D.LogDisk K.Sink relief.old.daemon result.0.now.daemon
        run.entry.table.now run.entry.queue.now run.entry.wait (vec_len workers) result.1 }
    ensures relief { result.0.ghost_name ≡ relief.entry.ghost_name }
{
    thread::scope(
        thread::scope_env(),
        run.rt,
        move |scope| -> (&mut FlushingRelief<D, K>, Vec<Worker>)
            requires hands { MayServeAll run.table.now run.queue.now (length run.refused.now) workers started back relief.now.daemon }
            requires told { knows_all_enrolled (view_of relief.now.daemon.flusher.seat).standing ≡ true }
            ensures served { ServesAll D.LogDisk K.Sink relief.entry.now.daemon result.0.now.daemon
                run.entry.table.now run.entry.queue.now run.entry.wait (vec_len workers) result.1 }
            ensures relief { result.0.ghost_name ≡ relief.entry.ghost_name }
        {
            let started = start_all(&run, scope, workers, started, relief);
            drain(run.rt, &mut relief.daemon);
            let workers = join_all(&run, started, back, relief);
            // A worker that came back as it was hired was served here, and what it released is to be sent as well.
            drain(run.rt, &mut relief.daemon);
            (relief, workers)
        },
    )
}
