//! A worker alone waits for nobody; and what it came to.
ghost use Rattle.std.specs.Prelude.{◌≡◌, ◌≤◌, All};
ghost use Rattle.lsn_space.specs.declared.opening.TheConstants.{MOST_BALANCE};
ghost use Rattle.lock_core.specs.Transfers.{IsAllowedJob};
ghost use Rattle.log_rule.specs.declared.view.Role.TheVariants.{Ended};
ghost use Rattle.log_table.specs.Seats.{IsOf, view_of};
ghost use Rattle.job_queue.specs.Passes.{HasPassOf};
ghost use Rattle.txn_runner.specs.Working.{EndsByMark};
ghost use Rattle.run_rig.specs.Enlisted.{IsEnlisted};
ghost use Rattle.test_rig.specs.NotedJobs.{IsNew};

use crossbeam_utils::sync::Key;
use log_table::{LogTable, Seat};
use lsn_space::Lsn;
use run_rig::{enlisted, jobs_of, work_queue};
use schedule_hook::OpenGate;
use std::alloc::Global;
use std::process::Abort;
use std::sync::Wait;
use std::test::Fail;
use test_rig::{table_of, worker};
use txn_runner::{Answer, Made, Queue, Relief, Row, Rows, Worked};

/// The relief of a worker that has nobody to wait for: a rest ends the test.
#[derive(Drop)]
pub(crate) struct NeverRests<'a, R> {
    pub rt: &'a R,
}

impl<'a, R: Abort> Relief for NeverRests<'a, R> {
    ghost use Rattle.std.specs.Prelude.{⊤};

    ghost ready = { λ relief. ⊤ };

    ghost later = { λ old new. ⊤ };

    fn begin(&mut self) {}

    fn rest(&mut self) {
        panic!(self.rt; "a worker alone has waited");
    }

    fn is_tired(&self) -> bool {
        false
    }

    fn sleep<W: Wait>(&mut self, _rt: &W, _key: Key<'_>) {
        self.rest();
    }

    fn between(&mut self, _made: Made, _lost: u32) {}

    ghost later_refl = { λ relief. tt };

    ghost later_trans = { λ first mid last before after. tt };
}

/// A worker's whole work: how it ended. Its seat comes back as one that has left.
pub(crate) fn work_alone<R: Wait + Abort>(
    rt: &R,
    table: &LogTable,
    mut seat: Seat,
    queue: &Queue,
    rows: &mut Rows,
) -> (Worked, Seat)
    requires unused { IsNew table.now seat }
    requires rows { IsEnlisted queue.now rows.old }
    requires no_slots { table.now.slots ≡ 0 }
    requires allowed { All (IsAllowedJob table.now.accounts) queue.now.script }
    ensures pass { HasPassOf queue.now rows.new }
    ensures all { EndsByMark result.0 rows.new }
    ensures seat { IsOf table.now result.1 }
    ensures ended { (view_of result.1).standing.role ≡ Ended }
    ensures number { (view_of result.1).standing.worker ≡ seat.worker }
{
    let mut relief = NeverRests { rt };
    let worked = work_queue(
        rt,
        table,
        &mut seat,
        queue,
        rows,
        &mut relief,
        false,
        &OpenGate,
    );
    table.leave(&mut seat);
    (worked, seat)
}

/// The script that a worker makes, and the LSN at which the log ended before.
pub(crate) type Given<'a> = (&'a [u8], u32);

/// How a worker alone ended, its rows, and the balances that it left.
pub(crate) type Ran = (Worked, Rows, (u64, u64));

/// A worker alone makes the script, over accounts of these balances.
pub(crate) fn run_alone<R: Wait + Abort>(
    rt: &R,
    alloc: Global,
    given: Given,
    balances: (u64, u64),
) -> Result<Ran, Fail>
    requires { (balances.0 ≤ MOST_BALANCE) × (balances.1 ≤ MOST_BALANCE) }
{
    let (script, end) = given;
    let (table, mut flusher_seat) = table_of(alloc, balances, end)?;
    let seat = worker(&table, &mut flusher_seat, 0, 1);
    let Some(mut jobs) = jobs_of(rt, alloc, script, 1) else {
        return Err(Fail::new("no script"));
    };
    let mut rows = enlisted(alloc, &mut jobs, 0)?;
    let (worked, seat) = work_alone(rt, &table, seat, jobs.queue(), &mut rows);
    let rows = jobs.dismiss(rows);
    jobs.count_taken();
    table.merge(&mut flusher_seat, seat);
    let closed = table.close(flusher_seat);
    Ok((worked, rows, (closed.balance(0), closed.balance(1))))
}

/// How two workers ended, the one after the other, their rows, and the balances that they left.
pub(crate) type BothRan = ((Worked, Rows), (Worked, Rows), (u64, u64));

/// A worker makes what it takes of the script over balances 100 and 0, and then another the rest.
pub(crate) fn run_two<R: Wait + Abort>(
    rt: &R,
    alloc: Global,
    (script, end): Given,
) -> Result<BothRan, Fail> {
    let (table, mut flusher_seat) = table_of(alloc, (100, 0), end)?;
    let one = worker(&table, &mut flusher_seat, 0, 1);
    let two = worker(&table, &mut flusher_seat, 1, 1);
    let Some(mut jobs) = jobs_of(rt, alloc, script, 2) else {
        return Err(Fail::new("no script"));
    };
    let mut first_rows = enlisted(alloc, &mut jobs, 0)?;
    let mut second_rows = enlisted(alloc, &mut jobs, 1)?;
    let (first, seat) = work_alone(rt, &table, one, jobs.queue(), &mut first_rows);
    table.merge(&mut flusher_seat, seat);
    let (second, seat) = work_alone(rt, &table, two, jobs.queue(), &mut second_rows);
    table.merge(&mut flusher_seat, seat);
    let first_rows = jobs.dismiss(first_rows);
    let second_rows = jobs.dismiss(second_rows);
    jobs.count_taken();
    let closed = table.close(flusher_seat);
    let balances = (closed.balance(0), closed.balance(1));
    Ok(((first, first_rows), (second, second_rows), balances))
}

/// A row as numbers, which a constant can hold: the transaction, its answer, where its end record ends, and the durable LSN
/// that was seen.
pub(crate) type Line = (u32, Answer, u32, u32);

/// The worker ended so.
pub(crate) fn has_ended(rt: &impl Abort, given: Given, worked: Worked, wanted: Worked) {
    assert_eq!(rt; worked, wanted, "{given:?}");
}

fn is_row(rt: &impl Abort, given: Given, row: Row, (txn, answer, end, seen): Line) {
    let wanted = Row {
        txn,
        answer,
        end: Lsn::new(end),
        seen: Lsn::new(seen),
    };
    assert_eq!(rt; row, wanted, "{given:?}");
}

/// These are the worker's rows.
pub(crate) fn has_rows(rt: &impl Abort, given: Given, rows: &Rows, wanted: &[Line]) {
    let rows = rows.as_slice();
    assert!(rt; rows.len() == wanted.len(), "{given:?}: {rows:?}");
    for (row, line) in rows.iter().zip(wanted) {
        is_row(rt, given, *row, *line);
    }
}

/// The worker left these balances.
pub(crate) fn has_left(rt: &impl Abort, given: Given, balances: (u64, u64), wanted: (u64, u64)) {
    assert_eq!(rt; balances, wanted, "{given:?}");
}
