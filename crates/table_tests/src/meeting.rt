//! Two workers that insert at once, each in a thread, and threads that are held until they have met.
ghost use Rattle.std.specs.Prelude.{◌≡◌, ◌+◌, [], ◌∷◌};
ghost use Rattle.log_record.specs.Spelling.{IsTxn};
ghost use Rattle.log_rule.specs.declared.view.Role.TheVariants.{Ended, Flusher};
ghost use Rattle.log_table.specs.Seats.{IsOf, view_of};
ghost use Rattle.test_rig.specs.NotedJobs.{IsNotedJob, MayInsert};

use lock_core::Job;
use log_table::{Closed, LogTable, Seat};
use lsn_space::Lsn;
use schedule_hook::Gate;
use std::alloc::Global;
use std::process::Abort;
use std::sync::atomic::{AtomicBool, AtomicU32, Ordering};
use std::test::Fail;
use std::thread::{Threads, join, yield_now};
use test_rig::{insert_note, send_all, table_of, worker};

/// How often a held thread looks for the other before it gives up.
const MOST_TURNS: u32 = 1_000_000;

/// No thread gave up while it was held.
pub(crate) fn have_met(rt: &impl Abort, gave_up: &AtomicBool) {
    assert!(rt; !gave_up.load(Ordering::SeqCst), "the threads did not meet");
}

/// A thread waits until as many have come as it wants, or notes that it gave up.
pub(crate) fn wait_for(arrived: &AtomicU32, wanted: u32, gave_up: &AtomicBool) {
    for _ in 0..MOST_TURNS {
        if arrived.load(Ordering::SeqCst) >= wanted {
            return;
        }
        yield_now();
    }
    gave_up.store(true, Ordering::SeqCst);
}

/// A worker's whole life: one insert, and the end.
fn work<G: Gate>(
    table: &LogTable,
    mut seat: Seat,
    number: u32,
    job: &Job,
    gate: &G,
) -> (Option<Lsn>, Seat)
    requires worker { MayInsert table.now number seat }
    requires next { IsTxn (number + 1) }
    requires no_slots { table.now.slots ≡ 0 }
    requires accounts { table.now.accounts ≡ 2 }
    requires job { IsNotedJob job.now }
    ensures seat { IsOf table.now result.1 }
    ensures ended { (view_of result.1).standing.role ≡ Ended }
    ensures worker { (view_of result.1).standing.worker ≡ (view_of seat).standing.worker }
{
    let at = insert_note(table, &mut seat, number, job, gate);
    table.leave(&mut seat);
    (at.ok(), seat)
}

/// Both workers are merged, and the table is closed.
fn gather(table: LogTable, mut flusher_seat: Seat, one: Seat, two: Seat) -> Closed
    requires one { IsOf table one }
    requires one_ended { (view_of one).standing.role ≡ Ended }
    requires one_is { (view_of one).standing.worker ≡ 0 }
    requires two { IsOf table two }
    requires two_ended { (view_of two).standing.role ≡ Ended }
    requires two_is { (view_of two).standing.worker ≡ 1 }
    requires flusher_seat { IsOf table flusher_seat }
    requires flusher { (view_of flusher_seat).standing.role ≡ Flusher }
    requires made { (view_of flusher_seat).standing.made ≡ 1 ∷ 0 ∷ [] }
{
    table.merge(&mut flusher_seat, one);
    table.merge(&mut flusher_seat, two);
    table.close(flusher_seat)
}

/// Where the records of two workers start, and where the log ends behind them.
pub(crate) type Places = (Option<Lsn>, Option<Lsn>, Lsn);

/// What two workers inserted: where, the units that are exposed, and where these end.
#[derive(Drop)]
pub(crate) struct Inserted {
    pub places: Places,
    pub units: Vec<u64>,
    pub exposed: Lsn,
}

/// Two workers insert at once, and are merged.
pub(crate) fn insert_both<R: Threads, G: Gate + Sync>(
    rt: &R,
    alloc: Global,
    first: &Job,
    second: &Job,
    gate: &G,
) -> Result<Inserted, Fail>
    requires first { IsNotedJob first.now }
    requires second { IsNotedJob second.now }
{
    let (table, mut flusher_seat) = table_of(alloc, (100, 0), 4)?;
    let one = worker(&table, &mut flusher_seat, 0, 1);
    let two = worker(&table, &mut flusher_seat, 1, 2);
    let t = &table;
    let ((at_first, one), (at_second, two)) = join(
        rt,
        move ||
            requires { MayInsert t.now 1 one × (t.now.slots ≡ 0) × (t.now.accounts ≡ 2) × IsNotedJob first.now }
            ensures { IsOf t.entry.now result.1 × ((view_of result.1).standing.role ≡ Ended) × ((view_of result.1).standing.worker ≡ (view_of one).standing.worker) }
        { work(t, one, 1, first, gate) },
        move ||
            requires { MayInsert t.now 2 two × (t.now.slots ≡ 0) × (t.now.accounts ≡ 2) × IsNotedJob second.now }
            ensures { IsOf t.entry.now result.1 × ((view_of result.1).standing.role ≡ Ended) × ((view_of result.1).standing.worker ≡ (view_of two).standing.worker) }
        { work(t, two, 2, second, gate) },
    );
    let sent = send_all(alloc, &table, &mut flusher_seat, Lsn::new(4))?;
    let closed = gather(table, flusher_seat, one, two);
    Ok(Inserted {
        places: (at_first, at_second, closed.lsn()),
        units: sent.0,
        exposed: closed.exposed(),
    })
}
