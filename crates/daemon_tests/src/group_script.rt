//! Transfers with notes, so that each has four records: a note, two updates and an end.
ghost use Rattle.std.specs.Prelude.{◌≡◌, ◌≤◌, All, IfSome};
ghost use Rattle.lock_core.specs.Transfers.{IsAllowedJob};
ghost use Rattle.job_queue.specs.Passes.{workers_of};
ghost use Rattle.run_rig.specs.Enlisted.{HasEnlisted};

use std::alloc::Global;
use std::sync::Wait;
use test_rig::noted_job;
use txn_runner::Jobs;
use txn_script::Script;

/// So many transfers of 30 from account 0 to account 1 with a note, at most 5000, numbered from 1, for so many workers, none of
/// which is enlisted.
pub(crate) fn noted_thirties<R: Wait>(
    rt: &R,
    alloc: Global,
    times: u32,
    workers: u32,
) -> Option<Jobs>
    requires workers { 1 ≤ workers }
    ensures none { IfSome result (HasEnlisted 0) }
    ensures allowed { IfSome result (λ jobs. All (IsAllowedJob 2) jobs.queue.script) }
    ensures workers { IfSome result (λ jobs. workers_of jobs ≡ workers) }
{
    let mut script = Script::with_room(alloc, times).ok()?;
    for _ in 0..times {
        let Some(job) = noted_job(b"a") else {
            return None;
        };
        script.push(job).ok()?;
    }
    if script.count() > 5000 {
        return None;
    }
    Jobs::make(rt, alloc, script, 1, workers).ok()
}
