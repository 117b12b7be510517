//! A seat takes a job, and looks whether the log has stopped.
ghost use Rattle.std.specs.Prelude.{◌≡◌};
ghost use Rattle.log_rule.specs.May.{MayTakeJob};
ghost use Rattle.log_table.specs.Seats.{IsOf, view_of};
ghost use Rattle.log_table.specs.Steps.{LoadsStop};
ghost use Rattle.log_rule.specs.AccountViews.{took_job};

use crate::plays::{TakeJob, Task};
use crate::table::{LogTable, Seat};
use lock_core::Job;
use std::marker::Brand;
use table_layout::STOP;

/// The job and its number, which a step can't see, come by the type.
fn take_job_as<N: Task>(table: &LogTable, seat: &mut Seat, number: u32, job: &Job) -> u64
    requires seat { IsOf table.now seat.old }
    requires may { MayTakeJob table.now.accounts number job.now (view_of seat.old) }
    requires named { (N.number ≡ number) × (N.job ≡ job.now) }
    ensures { LoadsStop table.now result (took_job number job.now result (view_of seat.old)) seat.old seat.new }
{
    table.table.shared.load::<TakeJob<N>>(&mut seat.base, STOP)
}

impl LogTable {
    /// Takes the job under this transaction number, and answers the stop word. An earlier job may be
    /// left unfinished.
    pub fn take_job(&self, seat: &mut Seat, number: u32, job: &Job) -> u64
        requires seat { IsOf self.now seat.old }
        requires may { MayTakeJob self.now.accounts number job.now (view_of seat.old) }
        ensures { LoadsStop self.now result (took_job number job.now result (view_of seat.old)) seat.old seat.new }
    {
        take_job_as::<Brand>(self, seat, number, job)
    }
}
