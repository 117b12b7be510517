//! Which transfers were taken: all of them, in order, by a worker alone; a front of the script, where workers were cut off.
ghost use Rattle.std.specs.Prelude.{◌≡◌, ◌<◌, [], All, IfOk, IfSome, OnOk, length};
ghost use Rattle.lock_core.specs.Transfers.{IsAllowedJob};
ghost use Rattle.job_queue.specs.Passes.{HasPassOf, marks_in, places_back, workers_of};
ghost use Rattle.job_queue.specs.Rule.{counted};
ghost use Rattle.run_rig.specs.Enlisted.{HasEnlisted, IsEnlisted};
ghost use Rattle.test_rig.specs.NotedJobs.{IsNew};

use crate::alone::{Given, Line, has_ended, has_rows, work_alone};
use lock_core::Job;
use log_table::{LogTable, Seat};
use lsn_space::{LAST, Lsn, NoMemory};
use run_rig::{enlisted, jobs_of};
use std::alloc::Global;
use std::process::Abort;
use std::sync::Wait;
use std::test::Fail;
use test_rig::{table_of, worker};
use txn_runner::{Answer, Cause, Jobs, Queue, Rows, Worked};
use txn_script::parse;

/// The transfers of the text, numbered from 5, for one worker.
fn jobs_from_five<R: Wait>(rt: &R, alloc: Global, text: &[u8]) -> Option<Jobs>
    ensures none { IfSome result (HasEnlisted 0) }
    ensures allowed { IfSome result (λ jobs. All (IsAllowedJob 2) jobs.queue.script) }
    ensures workers { IfSome result (λ jobs. workers_of jobs ≡ 1) }
{
    let Ok(script) = parse(alloc, text, 2) else {
        return None;
    };
    if script.count() > 1000 {
        return None;
    }
    Jobs::make(rt, alloc, script, 5, 1).ok()
}

/// A worker alone makes the jobs, and its pass is taken back: it took all places, in order, where it answers so.
fn make_all<R: Wait + Abort>(
    rt: &R,
    alloc: Global,
    table: &LogTable,
    seat: Seat,
    jobs: &mut Jobs,
) -> Result<(Worked, Rows), NoMemory>
    requires unused { IsNew table.now seat }
    requires no_slots { table.now.slots ≡ 0 }
    requires allowed { All (IsAllowedJob table.now.accounts) jobs.old.queue.script }
    requires none { HasEnlisted 0 jobs.old }
    requires workers { workers_of jobs.old ≡ 1 }
    ensures all { IfOk result (λ made. made.0 ≡ Worked.All → places_back jobs.new ≡ counted 0 (length jobs.old.queue.script)) }
{
    let mut rows = enlisted(alloc, jobs, 0)?;
    let (worked, _) = work_alone(rt, table, seat, jobs.queue(), &mut rows);
    let rows = jobs.dismiss(rows);
    jobs.count_taken();
    Ok((worked, rows))
}

const THREE_ROWS: &[Line] = &[
    (5, Answer::Done, 9, 4),
    (6, Answer::Done, 14, 4),
    (7, Answer::Done, 19, 4),
];

#[test]
fn a_worker_alone_takes_all_in_order(rt: HostRuntime) -> Result<(), Fail> {
    let given: Given = (b"pay 0 1 30\npay 0 1 20\npay 1 0 10\n", 4);
    let (table, mut flusher_seat) = table_of(rt.alloc(), (100, 0), given.1)?;
    let seat = worker(&table, &mut flusher_seat, 0, 1);
    let Some(mut jobs) = jobs_from_five(&rt, rt.alloc(), given.0) else {
        return Err(Fail::new("no script"));
    };
    let (worked, rows) = make_all(&rt, rt.alloc(), &table, seat, &mut jobs)?;
    has_ended(&rt, given, worked, Worked::All);
    has_rows(&rt, given, &rows, THREE_ROWS);
    Ok(())
}

/// The worker is cut off so, behind transfers of these rows, and may take its mark yet.
fn is_cut_off<R: Wait + Abort>(
    rt: &R,
    given: Given,
    table: &LogTable,
    seat: Seat,
    queue: &Queue,
    rows: &mut Rows,
    lines: &[Line],
    wanted: Cause,
) -> Result<(), Fail>
    requires unused { IsNew table.now seat }
    requires rows { IsEnlisted queue.now rows.old }
    requires no_slots { table.now.slots ≡ 0 }
    requires allowed { All (IsAllowedJob table.now.accounts) queue.now.script }
    ensures pass { OnOk result (HasPassOf queue.now rows.new) }
    ensures mark { OnOk result (marks_in rows.new ≡ []) }
{
    let (worked, _) = work_alone(rt, table, seat, queue, rows);
    has_rows(rt, given, rows, lines);
    let Worked::Cut(cause) = worked else {
        return Err(Fail::new("not cut off"));
    };
    assert_eq!(rt; cause, wanted);
    Ok(())
}

/// So many units have no place at this tail.
fn log_end(tail: u32, total: u32) -> Cause {
    Cause::LogEnd {
        tail: Lsn::new(tail),
        total,
    }
}

/// The transfer of this number is the next.
fn is_next<R: Wait + Abort>(rt: &R, queue: &Queue, rows: &mut Rows, number: u32)
    requires pass { HasPassOf queue.now rows.old }
    requires mark { marks_in rows.old ≡ [] }
{
    let taken = queue.take_next(rt, rows, &mut Job::new());
    assert_eq!(rt; taken, Some(number));
}

const SIX: &[u8] = b"pay 0 1 30\npay 0 1 500\npay 0 1 20\npay 0 1 10\npay 1 0 5\npay 0 1 1\n";

const SHORT_ROW: &[Line] = &[(2, Answer::Short(1), LAST, LAST - 3)];

/// The first worker finds no place for its second record, and neither do the others for more than one unit.
#[test]
fn workers_at_the_end_of_the_log_take_a_front(rt: HostRuntime) -> Result<(), Fail> {
    let given: Given = (SIX, LAST - 3);
    let (table, mut flusher_seat) = table_of(rt.alloc(), (100, 0), given.1)?;
    let Some(mut jobs) = jobs_of(&rt, rt.alloc(), given.0, 3) else {
        return Err(Fail::new("no script"));
    };
    let mut one = enlisted(rt.alloc(), &mut jobs, 0)?;
    let mut two = enlisted(rt.alloc(), &mut jobs, 1)?;
    let mut three = enlisted(rt.alloc(), &mut jobs, 2)?;
    let seat = worker(&table, &mut flusher_seat, 0, 1);
    let first = log_end(LAST - 1, 2);
    is_cut_off(&rt, given, &table, seat, jobs.queue(), &mut one, &[], first)?;
    let seat = worker(&table, &mut flusher_seat, 1, 1);
    let second = log_end(LAST, 2);
    is_cut_off(
        &rt,
        given,
        &table,
        seat,
        jobs.queue(),
        &mut two,
        SHORT_ROW,
        second,
    )?;
    let seat = worker(&table, &mut flusher_seat, 2, 1);
    let third = log_end(LAST, 2);
    is_cut_off(
        &rt,
        given,
        &table,
        seat,
        jobs.queue(),
        &mut three,
        &[],
        third,
    )?;
    jobs.dismiss(one);
    jobs.dismiss(two);
    jobs.dismiss(three);
    jobs.count_taken();
    let mut rest = Rows::make(rt.alloc(), 6)?;
    jobs.enlist(rt.alloc(), &mut rest)?;
    is_next(&rt, jobs.queue(), &mut rest, 5);
    Ok(())
}

#[test]
fn a_worker_that_was_cut_off_gives_its_mark_back(rt: HostRuntime) -> Result<(), Fail> {
    let given: Given = (b"pay 0 1 30\npay 0 1 20\n", 4);
    let (table, mut flusher_seat) = table_of(rt.alloc(), (100, 0), given.1)?;
    let Some(mut jobs) = jobs_of(&rt, rt.alloc(), given.0, 1) else {
        return Err(Fail::new("no script"));
    };
    let mut rows = enlisted(rt.alloc(), &mut jobs, 0)?;
    let seat = worker(&table, &mut flusher_seat, 0, 1);
    table.store_stop(&mut flusher_seat, 2);
    let stop = Cause::Stop(2);
    is_cut_off(&rt, given, &table, seat, jobs.queue(), &mut rows, &[], stop)?;
    jobs.dismiss(rows);
    jobs.count_taken();
    let mut other = Rows::make(rt.alloc(), 2)?;
    jobs.enlist(rt.alloc(), &mut other)?;
    is_next(&rt, jobs.queue(), &mut other, 2);
    Ok(())
}
