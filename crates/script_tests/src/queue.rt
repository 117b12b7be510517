//! Passes that take what is next in turns.
ghost use Rattle.std.specs.Prelude.{◌≡◌, ◌≤◌, [], IfOk};
ghost use Rattle.job_queue.specs.Passes.{HasFirstPass, HasPassOf, marks_back, marks_in, passes_out, workers_of};

use job_queue::{Jobs, Queue, Rows};
use lock_core::{Job, Leg};
use std::alloc::Global;
use std::process::Abort;
use std::sync::Wait;
use std::test::Fail;
use txn_script::parse;

/// The transfers of the text, numbered from 5, for so many workers.
fn jobs_of<R: Wait>(rt: &R, alloc: Global, text: &[u8], workers: u32) -> Result<Jobs, Fail>
    requires { 1 ≤ workers }
    ensures jobs { IfOk result HasFirstPass }
    ensures workers { IfOk result (λ jobs. workers_of jobs ≡ workers) }
    ensures none { IfOk result (λ jobs. (passes_out jobs ≡ 0) × (marks_back jobs ≡ [])) }
{
    let Ok(script) = parse(alloc, text, 2) else {
        return Err(Fail::new("no script"));
    };
    if script.count() > 1000 {
        return Err(Fail::new("a long script"));
    }
    match Jobs::make(rt, alloc, script, 5, workers) {
        Ok(jobs) => Ok(jobs),
        Err(_) => Err(Fail::new("no memory")),
    }
}

/// The rows' pass takes the transfer of this number, which pays this amount.
fn takes<R: Wait + Abort>(rt: &R, queue: &Queue, rows: &mut Rows, number: u32, amount: u32)
    requires pass { HasPassOf queue.now rows.old }
    requires mark { marks_in rows.old ≡ [] }
    ensures pass { HasPassOf queue.now rows.new }
    ensures mark { marks_in rows.new ≡ [] }
{
    let mut job = Job::new();
    let Some(taken) = queue.take_next(rt, rows, &mut job) else {
        panic!(rt; "{number}: no place is left")
    };
    assert_eq!(rt; taken, number);
    assert_eq!(rt;
        job.legs.as_slice(),
        [Leg::from((0, 1, amount))].as_slice(),
        "{number}"
    );
}

/// The rows' pass takes its mark.
fn takes_mark<R: Wait + Abort>(rt: &R, queue: &Queue, rows: &mut Rows)
    requires pass { HasPassOf queue.now rows.old }
    requires mark { marks_in rows.old ≡ [] }
    ensures { HasPassOf queue.now rows.new }
{
    let taken = queue.take_next(rt, rows, &mut Job::new());
    assert_eq!(rt; taken, None);
}

const FIVE: &[u8] = b"pay 0 1 30\npay 0 1 31\npay 0 1 32\npay 0 1 33\npay 0 1 34\n";

#[test]
fn two_passes_take_turns(rt: HostRuntime) -> Result<(), Fail> {
    let mut jobs = jobs_of(&rt, rt.alloc(), FIVE, 2)?;
    let mut one = Rows::make(rt.alloc(), 5)?;
    let mut two = Rows::make(rt.alloc(), 5)?;
    jobs.enlist(rt.alloc(), &mut one)?;
    jobs.enlist(rt.alloc(), &mut two)?;
    takes(&rt, jobs.queue(), &mut one, 5, 30);
    takes(&rt, jobs.queue(), &mut two, 6, 31);
    takes(&rt, jobs.queue(), &mut two, 7, 32);
    takes(&rt, jobs.queue(), &mut one, 8, 33);
    takes(&rt, jobs.queue(), &mut two, 9, 34);
    takes_mark(&rt, jobs.queue(), &mut one);
    takes_mark(&rt, jobs.queue(), &mut two);
    let one = jobs.dismiss(one);
    let two = jobs.dismiss(two);
    jobs.count_taken();
    assert_eq!(rt; one.as_slice().len(), 0);
    assert_eq!(rt; two.as_slice().len(), 0);
    Ok(())
}

#[test]
fn no_transfers_leave_the_marks(rt: HostRuntime) -> Result<(), Fail> {
    let mut jobs = jobs_of(&rt, rt.alloc(), b"", 1)?;
    let mut rows = Rows::make(rt.alloc(), 0)?;
    jobs.enlist(rt.alloc(), &mut rows)?;
    takes_mark(&rt, jobs.queue(), &mut rows);
    jobs.dismiss(rows);
    jobs.count_taken();
    Ok(())
}

#[test]
fn a_pass_comes_back_with_its_mark(rt: HostRuntime) -> Result<(), Fail> {
    let mut jobs = jobs_of(&rt, rt.alloc(), FIVE, 1)?;
    let mut cut = Rows::make(rt.alloc(), 5)?;
    jobs.enlist(rt.alloc(), &mut cut)?;
    takes(&rt, jobs.queue(), &mut cut, 5, 30);
    jobs.dismiss(cut);
    jobs.count_taken();
    let mut other = Rows::make(rt.alloc(), 5)?;
    jobs.enlist(rt.alloc(), &mut other)?;
    takes(&rt, jobs.queue(), &mut other, 6, 31);
    jobs.dismiss(other);
    jobs.count_taken();
    Ok(())
}
