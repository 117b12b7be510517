//! A table closed behind a transfer.
ghost use Rattle.std.specs.Prelude.{◌≡◌, [], ◌∷◌, None, IfOk};
ghost use Rattle.lock_core.specs.Transfers.{IsAllowedJob};
ghost use Rattle.job_queue.specs.Passes.{workers_of};
ghost use Rattle.run_rig.specs.Enlisted.{HasEnlisted};
ghost use Rattle.worker_tests.specs.OneClosed.{ClosesOne};

use crate::alone::NeverRests;
use log_table::Closed;
use lsn_space::{Lsn, NoMemory};
use run_rig::{enlisted, work_queue};
use schedule_hook::OpenGate;
use std::alloc::Global;
use std::process::Abort;
use std::sync::Wait;
use std::test::Fail;
use test_rig::{job_of, table_of, worker};
use txn_runner::Jobs;
use txn_script::Script;

/// One transfer of 30 from account 0 to account 1, under number 1.
fn one_job<R: Wait>(rt: &R, alloc: Global) -> Result<Jobs, NoMemory>
    ensures script { IfOk result (λ jobs. jobs.queue.script ≡ record { legs = (0, 1, 30) ∷ []; note = None } ∷ []) }
    ensures allowed { IfOk result (λ jobs. IsAllowedJob 2 (record { legs = (0, 1, 30) ∷ []; note = None })) }
    ensures first { IfOk result (λ jobs. jobs.queue.first ≡ 1) }
    ensures none { IfOk result (HasEnlisted 0) }
    ensures workers { IfOk result (λ jobs. workers_of jobs ≡ 1) }
{
    let mut script = Script::with_room(alloc, 1)?;
    script.push(job_of(30))?;
    Jobs::make(rt, alloc, script, 1, 1)
}

/// A witness that all that `close` asks for, and the premise of what it says of the log, can be met at
/// once behind a transfer: so here the log and its accounts are known without a premise.
fn close_one<R: Wait + Abort>(rt: &R, alloc: Global) -> Result<Closed, NoMemory>
    ensures { IfOk result (ClosesOne 4 ((100, 0) ∷ (0, 0) ∷ []) 1 (record { legs = (0, 1, 30) ∷ []; note = None })) }
{
    let (table, mut flusher_seat) = table_of(alloc, (100, 0), 4)?;
    let mut seat = worker(&table, &mut flusher_seat, 0, 1);
    let mut jobs = one_job(rt, alloc)?;
    let mut rows = enlisted(alloc, &mut jobs, 0)?;
    let mut relief = NeverRests { rt };
    work_queue(
        rt,
        &table,
        &mut seat,
        jobs.queue(),
        &mut rows,
        &mut relief,
        false,
        &OpenGate,
    );
    jobs.dismiss(rows);
    jobs.count_taken();
    table.leave(&mut seat);
    table.merge(&mut flusher_seat, seat);
    Ok(table.close(flusher_seat))
}

#[test]
fn the_closed_table_has_the_new_balances(rt: HostRuntime) -> Result<(), Fail> {
    let closed = close_one(&rt, rt.alloc())?;
    let first = (closed.balance(0), closed.mark(0));
    let second = (closed.balance(1), closed.mark(1));
    let found = (closed.lsn(), first, second);
    assert_eq!(rt; found, (Lsn::new(9), (70, 9), (30, 9)));
    Ok(())
}
