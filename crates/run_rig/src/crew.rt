//! Workers, each with a seat and rows of its own, and all of them in threads.
ghost use Rattle.std.specs.Prelude.{◌≤◌, ◌<◌, IfSome, OnSome};
ghost use Rattle.log_table.specs.HiredWorkers.{HasHired};
ghost use Rattle.job_queue.specs.Passes.{IsSameQueue, workers_of};
ghost use Rattle.run_rig.specs.Enlisted.{AllowsAll, AreHands, HasEnlisted, Hires, IsHand};

use crate::workers::{enlisted, work_queue};
use log_table::{LogTable, Seat};
use schedule_hook::OpenGate;
use std::alloc::Global;
use std::sync::Wait;
use std::sync::atomic::{AtomicUsize, Ordering};
use std::thread;
use std::thread::{Scope, Threads};
use std::time::Clock;
use test_rig::worker;
use txn_runner::{Jobs, Queue, Rows, YieldRelief};

/// A worker before its work: its seat, and its rows.
#[derive(Drop)]
pub struct Hand {
    pub seat: Seat,
    pub rows: Rows,
}

/// The worker of this number, which is the next.
fn hire(
    alloc: Global,
    table: &LogTable,
    flusher_seat: &mut Seat,
    jobs: &mut Jobs,
    number: u32,
) -> Option<Hand>
    requires flusher_seat { HasHired table.now number flusher_seat.old }
    requires jobs { HasEnlisted number jobs.old }
    requires mark { number < workers_of jobs.old }
    ensures { IfSome result (Hires table.now number flusher_seat.new jobs.old jobs.new) }
{
    let Ok(rows) = enlisted(alloc, jobs, number) else {
        return None;
    };
    let seat = worker(table, flusher_seat, number, 1);
    Some(Hand { seat, rows })
}

/// So many workers, the first of the table and of the jobs.
pub fn hands(
    alloc: Global,
    table: &LogTable,
    flusher_seat: &mut Seat,
    jobs: &mut Jobs,
    count: u32,
) -> Option<Vec<Hand>>
    requires flusher_seat { HasHired table.now 0 flusher_seat.old }
    requires jobs { HasEnlisted 0 jobs.old }
    requires marks { count ≤ workers_of jobs.old }
    ensures flusher_seat { OnSome result (HasHired table.now count flusher_seat.new) }
    ensures same { OnSome result (IsSameQueue jobs.old jobs.new) }
    ensures hands { IfSome result (λ hands. AreHands table.now jobs.new.queue hands.items) }
{
    let mut hands = Vec::new(alloc);
    for number in 0..count {
        let hand = hire(alloc, table, flusher_seat, jobs, number)?;
        hands.push(hand).ok()?;
    }
    Some(hands)
}

/// A worker's whole life: the transfers that it takes of the queue, and the end. Answers how many rows it has.
fn live<R: Wait + Clock>(rt: &R, table: &LogTable, queue: &Queue, hand: Hand) -> usize
    requires hand { IsHand table.now queue.now hand }
    requires allowed { AllowsAll table.now queue.now }
{
    let Hand { mut seat, mut rows } = hand;
    let mut relief = YieldRelief::new(rt);
    work_queue(
        rt,
        table,
        &mut seat,
        queue,
        &mut rows,
        &mut relief,
        false,
        &OpenGate,
    );
    table.leave(&mut seat);
    rows.as_slice().len()
}

/// Starts a thread for each worker, which adds how many rows it has. One that gets no thread is served here.
fn start_all<'a, R: Threads + Wait + Clock + Sync, E>(
    rt: &'a R,
    scope: &Scope<'a, E>,
    table: &'a LogTable,
    queue: &'a Queue,
    hands: Vec<Hand>,
    rows: &'a AtomicUsize,
)
    requires hands { AreHands table.now queue.now hands.items }
    requires allowed { AllowsAll table.now queue.now }
{
    for hand in hands {
        let started = scope.spawn(
            move ||
                requires { IsHand table.now queue.now hand × AllowsAll table.now queue.now }
            {
                rows.fetch_add(live(rt, table, queue, hand), Ordering::SeqCst);
            },
        );
        if let Err(refused) = started {
            (refused.value)();
        }
    }
}

/// All workers, each in a thread, until the last has ended. Their rows are counted.
pub fn live_all<'a, R: Threads + Wait + Clock + Sync>(
    rt: &'a R,
    table: &'a LogTable,
    queue: &'a Queue,
    hands: Vec<Hand>,
    rows: &'a AtomicUsize,
)
    requires hands { AreHands table.now queue.now hands.items }
    requires allowed { AllowsAll table.now queue.now }
{
    thread::scope(
        thread::scope_env(),
        rt,
        move |scope|
            requires hands { AreHands table.now queue.now hands.items }
            requires allowed { AllowsAll table.now queue.now }
        { start_all(rt, scope, table, queue, hands, rows) },
    );
}
