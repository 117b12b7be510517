//! Two threads that insert notes or transfers while a daemon sends them to a disk, and what is recovered there.
ghost use Rattle.std.specs.Prelude.{◌≡◌, ◌<◌, ◌+◌, true, All};
ghost use Rattle.std.specs.List.{AllByRecursion};
ghost use Rattle.log_table.specs.Seats.{view_of};
ghost use Rattle.log_rule.specs.Views.{knows_all_enrolled};
ghost use Rattle.segment_file.specs.StandingLog.{IsStableGate};
ghost use Rattle.lock_core.specs.Transfers.{IsAllowedJob};
ghost use Rattle.commit_pipeline.specs.Turning.{MayTurn};
ghost use Rattle.run_rig.specs.Enlisted.{IsHand};
ghost use Rattle.test_rig.specs.NotedJobs.{IsNotedJob, MayInsert};

use commit_pipeline::{Daemon, DaemonFault, Voice};
use lock_core::Job;
use log_disk::LogDisk;
use log_table::{LogTable, Seat};
use lsn_space::{Lsn, Word};
use memory_disk::{MemoryDisk, MemorySink};
use run_rig::{CREATED, daemon_on, hands, live_all, recovered_balances, recovered_end, thirties};
use std::alloc::Global;
use std::fs;
use std::process::Abort;
use std::sync::Wait;
use std::sync::atomic::{AtomicUsize, Ordering};
use std::test::Fail;
use std::thread::{Threads, join};
use std::time::Clock;
use system_disk::FileDisk;
use test_rig::{insert_all, noted_job, table_of, worker};

/// What account 0 begins with; account 1 begins with nothing.
const RICH: u64 = 100_000;

/// How many notes each thread inserts, of two units each.
const NOTES: u32 = 20;

/// The end of the log with all notes.
const END: u32 = 4 + 2 * 2 * NOTES;

/// How many transfers each thread makes, of five units each.
const TRANSFERS: u32 = 500;

/// The end of the log with all transfers.
const TRANSFERS_END: u32 = 4 + 5 * 2 * TRANSFERS;

/// What a run of the daemon came to: its answer, durable, and how many units were in flight.
type Outcome = (Result<Lsn, DaemonFault>, Lsn, u32);

/// Turns until the log is drained, or a fault comes.
fn finish<R: Wait + Clock, D: LogDisk>(rt: &R, daemon: &mut Daemon<D, MemorySink>) -> Outcome
    requires ready { MayTurn D.LogDisk daemon.old }
    requires told { knows_all_enrolled (view_of daemon.old.flusher.seat).standing ≡ true }
{
    let answer = daemon.run_until_drained(rt);
    let durable = daemon.flusher.tail.next;
    let flying = daemon.flusher.batch.count();
    (answer, durable, flying)
}

/// A worker's whole life: so many notes, under numbers from this on, and the end.
fn insert(table: &LogTable, mut seat: Seat, first: u32, job: &Job) -> u32
    requires worker { MayInsert table.now first seat }
    requires numbers { first < 1000 }
    requires no_slots { table.now.slots ≡ 0 }
    requires accounts { table.now.accounts ≡ 2 }
    requires job { IsNotedJob job.now }
{
    let inserted = insert_all(table, &mut seat, first, NOTES, job);
    table.leave(&mut seat);
    inserted.0
}

/// Both workers insert notes, each in a thread.
fn insert_both<R: Threads>(rt: &R, table: &LogTable, one: Seat, two: Seat, job: &Job) -> u32
    requires one { MayInsert table.now 1 one }
    requires two { MayInsert table.now 501 two }
    requires no_slots { table.now.slots ≡ 0 }
    requires accounts { table.now.accounts ≡ 2 }
    requires job { IsNotedJob job.now }
{
    let (first, second) = join(
        rt,
        move ||
            requires { MayInsert table.now 1 one × (table.now.slots ≡ 0) × (table.now.accounts ≡ 2) × IsNotedJob job.now }
        { insert(table, one, 1, job) },
        move ||
            requires { MayInsert table.now 501 two × (table.now.slots ≡ 0) × (table.now.accounts ≡ 2) × IsNotedJob job.now }
        { insert(table, two, 501, job) },
    );
    first.saturating_add(second)
}

/// Turns to the end, beside two threads that insert notes; also how many were inserted.
fn run_notes<R: Threads + Wait + Clock + Sync, D: LogDisk>(
    rt: &R,
    alloc: Global,
    disk: &mut D,
    sink: &mut MemorySink,
) -> Option<(u32, Outcome)>
    requires { D.honest disk.old → IsStableGate 0 (D.images disk.old) }
{
    let Ok((table, mut flusher_seat)) = table_of(alloc, (RICH, 0), 4) else {
        return None;
    };
    let one = worker(&table, &mut flusher_seat, 0, 1);
    let two = worker(&table, &mut flusher_seat, 1, 501);
    let mut daemon = daemon_on(
        alloc,
        (RICH, 0),
        &table,
        flusher_seat,
        disk,
        sink,
        Voice::Lines,
    )?;
    let note = noted_job(b"a")?;
    let (t, job) = (&table, &note);
    Some(join(
        rt,
        move ||
            requires { MayInsert t.now 1 one × MayInsert t.now 501 two × (t.now.slots ≡ 0) × (t.now.accounts ≡ 2) × IsNotedJob job.now }
        { insert_both(rt, t, one, two, job) },
        move ||
            requires { MayTurn D.LogDisk daemon × (knows_all_enrolled (view_of daemon.flusher.seat).standing ≡ true) }
        { finish(rt, &mut daemon) },
    ))
}

/// Turns to the end, beside two threads that make the transfers; also how many rows they have.
fn run_transfers<R: Threads + Wait + Clock + Sync, D: LogDisk>(
    rt: &R,
    alloc: Global,
    disk: &mut D,
    sink: &mut MemorySink,
) -> Option<(usize, Outcome)>
    requires { D.honest disk.old → IsStableGate 0 (D.images disk.old) }
{
    let Ok((table, mut flusher_seat)) = table_of(alloc, (RICH, 0), 4) else {
        return None;
    };
    let mut jobs = thirties(rt, alloc, 2 * TRANSFERS, 2)?;
    let crew = hands(alloc, &table, &mut flusher_seat, &mut jobs, 2)?;
    let mut daemon = daemon_on(
        alloc,
        (RICH, 0),
        &table,
        flusher_seat,
        disk,
        sink,
        Voice::Lines,
    )?;
    let rows = AtomicUsize::new(0);
    let (t, queue, count) = (&table, jobs.queue(), &rows);
    let ((), outcome) = join(
        rt,
        move ||
            requires { AllByRecursion (IsHand t.now queue.now) crew.items × All (IsAllowedJob t.now.accounts) queue.now.script }
        { live_all(rt, t, queue, crew, count) },
        move ||
            requires { MayTurn D.LogDisk daemon × (knows_all_enrolled (view_of daemon.flusher.seat).standing ≡ true) }
        { finish(rt, &mut daemon) },
    );
    Some((rows.load(Ordering::SeqCst), outcome))
}

/// The run ended well, with all in the log up to this end.
fn has_drained(rt: &impl Abort, (answer, durable, _): Outcome, end: u32) {
    let end = Lsn::new(end);
    assert_eq!(rt; (answer, durable), (Ok(end), end));
}

/// All notes were recovered.
fn is_recovered(rt: &impl Abort, found: Option<Lsn>) {
    assert!(rt; found == Some(Lsn::new(END)), "{found:?}");
}

#[test]
fn two_threads_and_a_daemon(rt: HostRuntime) -> Result<(), Fail> {
    let alloc = rt.alloc();
    let mut disk = MemoryDisk::make(alloc, &[], 20_000, &[])?;
    let mut sink = MemorySink::make(alloc, 100, &[])?;
    let Some((inserted, outcome)) = run_notes(&rt, alloc, &mut disk, &mut sink) else {
        return Err(Fail::new("no memory"));
    };
    assert!(rt; inserted == 2 * NOTES, "{inserted} were inserted");
    has_drained(&rt, outcome, END);
    is_recovered(&rt, recovered_end(alloc, &mut disk));
    Ok(())
}

#[test]
fn a_thousand_transfers(rt: HostRuntime) -> Result<(), Fail> {
    let alloc = rt.alloc();
    let mut disk = MemoryDisk::make(alloc, &[], 200_000, &[])?;
    let mut sink = MemorySink::make(alloc, 20_000, &[])?;
    let run = run_transfers(&rt, alloc, &mut disk, &mut sink);
    let Some((made, outcome)) = run else {
        return Err(Fail::new("no memory"));
    };
    assert!(rt; made == 2 * TRANSFERS as usize, "{made} were made");
    has_drained(&rt, outcome, TRANSFERS_END);
    let balances = recovered_balances(alloc, &mut disk);
    assert!(rt; balances == Some((70_000, 30_000)), "{balances:?}");
    Ok(())
}

/// What a run came to where this call of the disk fails, and where the log ends that this crash left.
fn crash_at<R: Threads + Wait + Clock + Sync>(
    rt: &R,
    alloc: Global,
    failing: u64,
    pick: u64,
) -> Result<(Outcome, Lsn), Fail> {
    let mut disk = MemoryDisk::make(alloc, &[], 20_000, &[failing])?;
    let mut sink = MemorySink::make(alloc, 100, &[])?;
    let Some((_, outcome)) = run_notes(rt, alloc, &mut disk, &mut sink) else {
        return Err(Fail::new("no memory"));
    };
    let mut left = disk.crash(pick);
    // A call that the run did not come to fails here, once.
    let first = recovered_end(alloc, &mut left);
    let second = recovered_end(alloc, &mut left);
    let Some(found) = first.or(second) else {
        return Err(Fail::new("no log is left"));
    };
    Ok((outcome, found))
}

/// The log ends at its whole end where the run ended well, and else at durable, or at the end of the batch in flight.
fn is_left(rt: &impl Abort, call: u64, outcome: Outcome, found: Lsn) {
    let (answer, durable, flying) = outcome;
    let fits = match answer {
        Ok(end) => end == Lsn::new(END) && found == end,
        Err(_) => found == durable || Some(found) == durable.plus(flying),
    };
    assert!(rt; fits, "call {call}: {outcome:?}, {found:?}");
}

/// After a fault of the disk a crash leaves the log up to durable, or up to the end of the batch in flight.
#[test]
fn the_disk_fails_beside_two_threads(rt: HostRuntime) -> Result<(), Fail> {
    for call in 1..9 {
        for pick in [0, 1, 77, 12_345] {
            let (outcome, found) = crash_at(&rt, rt.alloc(), CREATED + call, pick)?;
            is_left(&rt, call, outcome, found);
        }
    }
    Ok(())
}

/// The file of this name is opened, or made.
fn attaches(rt: &impl Abort, disk: &mut FileDisk<HostRuntime>, name: &Word, make: bool) {
    assert!(rt; disk.attach(name, make).is_ok());
}

/// Two threads insert notes while a daemon sends them to the file of this name, which is made.
fn writes_notes<R: Threads + Wait + Clock + Sync + Abort>(
    rt: &R,
    alloc: Global,
    mut disk: FileDisk<HostRuntime>,
    name: &Word,
) -> Result<(), Fail> {
    attaches(rt, &mut disk, name, true);
    let mut sink = MemorySink::make(alloc, 100, &[])?;
    let Some((_, outcome)) = run_notes(rt, alloc, &mut disk, &mut sink) else {
        return Err(Fail::new("no memory"));
    };
    has_drained(rt, outcome, END);
    Ok(())
}

/// All notes are recovered from the file of this name.
fn has_notes(rt: &impl Abort, alloc: Global, mut disk: FileDisk<HostRuntime>, name: &Word) {
    attaches(rt, &mut disk, name, false);
    is_recovered(rt, recovered_end(alloc, &mut disk));
}

#[test]
fn two_threads_and_a_real_file(rt: HostRuntime) -> Result<(), Fail> {
    let Ok(name) = Word::make(rt.alloc(), "pipeline_test.log") else {
        return Err(Fail::new("no memory"));
    };
    let _ = fs::remove_file(&rt, name.text());
    writes_notes(&rt, rt.alloc(), FileDisk::make(rt), &name)?;
    has_notes(&rt, rt.alloc(), FileDisk::make(rt), &name);
    assert!(rt; fs::remove_file(&rt, name.text()).is_ok());
    Ok(())
}
