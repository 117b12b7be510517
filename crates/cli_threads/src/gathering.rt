//! The end of a run: the flusher's seat takes in the workers' seats, and the queue's first pass takes back theirs.
ghost use Rattle.std.specs.Prelude.{◌≡◌, ◌≤◌, [], vec_len, vec_capacity};
ghost use Rattle.std.specs.List.{AllByRecursion};
ghost use Rattle.log_rule.specs.declared.view.Role.TheVariants.{Flusher};
ghost use Rattle.log_table.specs.Seats.{IsOf, view_of};
ghost use Rattle.job_queue.specs.Passes.{HasFirstPass};
ghost use Rattle.cli_threads.specs.Gathering.{GathersAll, HasLeft};

use cli_workers::Worker;
use log_table::{LogTable, Seat};
use txn_runner::{Jobs, Worked};

/// Takes in the seats of all workers, in the order of their numbers, dismisses the pass of each one's rows, and answers what the
/// work of each came to.
pub(crate) fn gather(
    table: &LogTable,
    flusher_seat: &mut Seat,
    jobs: &mut Jobs,
    workers: Vec<Worker>,
    mut ends: Vec<Worked>,
) -> Vec<Worked>
    requires flusher_seat { IsOf table.now flusher_seat.old }
    requires flusher { (view_of flusher_seat.old).standing.role ≡ Flusher }
    requires jobs { HasFirstPass jobs.old }
    requires workers { AllByRecursion (HasLeft table.now jobs.old.queue) workers.items }
    requires none { ends.items ≡ [] }
    requires room { vec_len workers ≤ vec_capacity ends }
    ensures { GathersAll table.now flusher_seat.old flusher_seat.new jobs.old jobs.new workers result }
{
    for worker in workers {
        let Worker { seat, rows, worked } = worker;
        table.merge(flusher_seat, seat);
        jobs.dismiss(rows);
        let Some(worked) = worked else { unreachable!() };
        ends.push_reserved(worked);
    }
    ends
}
