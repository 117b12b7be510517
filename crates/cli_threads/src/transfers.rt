//! The transfers of a run.
ghost use Rattle.std.specs.Prelude.{◌≡◌, ◌≤◌, ◌+◌, ℕ, All, length, IsSomeAnd};
ghost use Rattle.log_record.specs.declared.limits.TheConstants.{LAST_TXN};
ghost use Rattle.log_recovery.specs.Opened.{OpenedList};
ghost use Rattle.log_table.specs.HiredWorkers.{HasHired};
ghost use Rattle.log_rule.specs.FirstAccounts.{HasAccounts};
ghost use Rattle.log_table.specs.Seats.{key_of};
ghost use Rattle.lock_core.specs.Transfers.{IsAllowedJob};
ghost use Rattle.cli_threads.specs.Ending.{HasEnded};
ghost use Rattle.cli_threads.specs.Making.{HasSizes, Prepares};
ghost use Rattle.cli_threads.specs.Prepared.{AreReady, HasServedAll, HasTurned, IsBegun, IsCrew, IsEndOf, IsLeftOf, IsOver};
ghost use Rattle.cli_threads.specs.Prepared.{IsPrepared, MayBeTaken, MayBeTakenApart, MayGoOn};
ghost use Rattle.cli_threads.specs.Transferred.{IsOpened};
ghost use Rattle.commit_pipeline.specs.Turning.{MayTurn};

use crate::gathering::gather;
use crate::room::{Room, flags};
use crate::scope::serve_all;
use cli_ending::RunEnd;
use cli_workers::{FlushingRelief, Run, Worker, hire_all};
use commit_pipeline::{Daemon, DaemonFault, DaemonParts, Voice};
use flusher::{Flusher, FlusherParts};
use log_disk::{Gate, LogDisk, Sink};
use log_table::{LogTable, Seat, Start};
use lsn_space::NoMemory;
use segment_file::{Batch, Tail};
use std::alloc::Global;
use std::sync::Wait;
use std::sync::atomic::AtomicBool;
use std::thread::Threads;
use std::time::Clock;
use txn_runner::{Jobs, Worked};
use txn_script::Script;

/// All that a run needs memory for: the table, the transfers in their queue, a flag for each worker, and those who make the
/// transfers.
#[derive(Drop)]
pub struct Prepared {
    pub(crate) table: LogTable,
    pub(crate) jobs: Jobs,
    pub(crate) refused: Vec<AtomicBool>,
    pub(crate) crew: Crew,
}

impl Prepared {
    /// Lets all of it go, so that no crate above proves again how each thing in it is let go.
    pub fn let_go(self) {}
}

/// A run before its first transfer: all memory is there, and the log goes on at this tail.
#[derive(Drop)]
pub struct ReadyRun {
    pub prepared: Prepared,
    pub tail: Tail,
}

/// The table's first seat, a batch as long as the ring, and the workers.
#[derive(Drop)]
pub(crate) struct Crew {
    pub(crate) flusher_seat: Seat,
    pub(crate) batch: Batch,
    pub(crate) hands: Hands,
}

/// The workers, each of which is enrolled, and room for what is to come of them.
#[derive(Drop)]
pub(crate) struct Hands {
    pub(crate) workers: Vec<Worker>,
    pub(crate) room: Room,
}

/// The disk and the sink of a run.
#[derive(Drop)]
struct Outside<'a, D, K> {
    disk: &'a mut D,
    out: &'a mut K,
}

/// What befell the daemon, what it counted, what the work of each worker came to, and the table's first seat.
#[derive(Drop)]
struct Served {
    fault: Option<DaemonFault>,
    done: u64,
    refused: u64,
    ends: Vec<Worked>,
    flusher_seat: Seat,
}

/// Makes the table, and all that workers and the daemon need. The transfers are put into a queue, of which each worker has its pass.
pub fn prepare<R: Wait>(
    rt: &R,
    alloc: Global,
    start: Start,
    script: Script,
    first: u64,
    workers: u32,
) -> Result<Prepared, NoMemory>
    requires sizes { HasSizes start }
    requires accounts { HasAccounts start }
    requires some { 1 ≤ first }
    requires shared { 1 ≤ workers }
    requires numbered { first + length script ≤ LAST_TXN }
    requires allowed { All (IsAllowedJob (length start.accounts.rows)) script }
    ensures { Prepares start script first workers result }
{
    let batch = Batch::make(alloc, start.ring)?;
    let (table, mut flusher_seat) = LogTable::make(alloc, start)?;
    let mut jobs = Jobs::make(rt, alloc, script, first, workers)?;
    let hired = hire_all(alloc, &table, &mut flusher_seat, &mut jobs, workers)?;
    let refused = flags(alloc, workers)?;
    let room = Room::make(alloc, workers)?;
    let hands = Hands {
        workers: hired,
        room,
    };
    let crew = Crew {
        flusher_seat,
        batch,
        hands,
    };
    Ok(Prepared {
        table,
        jobs,
        refused,
        crew,
    })
}

/// A daemon over the table's first seat, which a waiting worker may keep at work. From now on the disk and the sink are its own.
fn relief_of<'a, D: LogDisk, K: Sink>(
    table: &'a LogTable,
    seat: Seat,
    batch: Batch,
    outside: Outside<'a, D, K>,
    tail: Tail,
    voice: Voice,
) -> FlushingRelief<'a, D, K>
    requires seat { (n : ℕ) × HasHired table.now n seat }
    requires batch { table.now.ring ≤ batch.room }
    requires log { MayGoOn D.LogDisk tail table.now outside.disk.now }
    ensures ready { MayTurn D.LogDisk result.daemon }
    ensures begun { IsBegun D.LogDisk K.Sink tail voice seat outside.entry.disk.now outside.entry.out.now result.daemon }
    ensures table { result.daemon.flusher.table ≡ table.entry }
    ensures disk { result.daemon.flusher.disk ≡ outside.entry.disk }
    ensures sink { result.daemon.sink ≡ outside.entry.out }
{
    let Outside { disk, out } = outside;
    let flusher = Flusher::make(table, disk, seat, batch, tail);
    FlushingRelief {
        daemon: Daemon::make(flusher, out, voice),
    }
}

/// Makes the transfers, by workers in threads, while this thread is the daemon. Then the flusher's seat takes in all workers' seats,
/// and the queue's first pass all passes. What the work of each worker came to is put into a place.
fn serve_crew<'a, 'c, R: Threads + Wait + Clock + Sync, D: LogDisk, K: Sink, G: Gate + Sync>(
    rt: &R,
    table: &LogTable,
    jobs: &mut Jobs,
    refused: &[AtomicBool],
    wait: bool,
    gate: &G,
    hands: Hands,
    relief: &'c mut FlushingRelief<'a, D, K>,
    ends: &mut Option<Vec<Worked>>,
) -> &'c mut FlushingRelief<'a, D, K>
    requires jobs { MayBeTaken table.now (length refused.now) jobs.old }
    requires hands { AreReady table.now jobs.old.queue (length refused.now) hands }
    requires flusher_seat { HasHired table.now (length refused.now) relief.old.daemon.flusher.seat }
    requires ready { MayTurn D.LogDisk relief.old.daemon }
    ensures turned { IsSomeAnd ends.new (λ ends. HasServedAll D.LogDisk K.Sink table.now jobs.old.queue (length refused.now) wait
        relief.old.daemon result.now.daemon ends.items) }
    ensures relief { result.ghost_name ≡ relief.entry.ghost_name }
    ensures disk { result.now.daemon.flusher.disk.ghost_name ≡ relief.old.daemon.flusher.disk.ghost_name }
    ensures out { result.now.daemon.sink.ghost_name ≡ relief.old.daemon.sink.ghost_name }
{
    let queue = jobs.queue();
    let run = Run::make(rt, table, queue, refused, wait, gate);
    let Hands { workers, room } = hands;
    let (relief, workers) = serve_all(run, workers, room.started, room.back, relief);
    let daemon = &mut relief.daemon;
    let flusher = &mut daemon.flusher;
    let worked = gather(table, &mut flusher.seat, jobs, workers, room.ends);
    jobs.count_taken();
    *ends = Some(worked);
    relief
}

/// Takes the daemon apart, once all workers' seats were taken in. What is left besides disk and sink is put into a place, and not
/// answered beside these two, so that contracts follow them to the caller.
fn take_apart<'a, D: LogDisk, K: Sink>(
    relief: FlushingRelief<'a, D, K>,
    ends: Vec<Worked>,
    served: &mut Option<Served>,
) -> Outside<'a, D, K>
    requires over { MayBeTakenApart relief }
    ensures served { IsSomeAnd served.new (IsLeftOf D.LogDisk K.Sink relief.entry.daemon ends.items) }
    ensures disk { result.disk ≡ relief.entry.daemon.flusher.disk }
    ensures out { result.out ≡ relief.entry.daemon.sink }
{
    let fault = relief.daemon.fault();
    let done = relief.daemon.done();
    let refused = relief.daemon.refused();
    let DaemonParts { flusher, sink } = relief.daemon.into_parts();
    let FlusherParts { seat, disk } = flusher.into_parts();
    *served = Some(Served {
        fault,
        done,
        refused,
        ends,
        flusher_seat: seat,
    });
    Outside { disk, out: sink }
}

/// Makes the transfers by a daemon, which has the disk and the sink from `relief_of` to `take_apart`.
fn run_crew<'a, R: Threads + Wait + Clock + Sync, D: LogDisk, K: Sink, G: Gate + Sync>(
    rt: &R,
    table: &'a LogTable,
    jobs: &mut Jobs,
    crew: Crew,
    refused: &[AtomicBool],
    wait: bool,
    gate: &G,
    tail: Tail,
    voice: Voice,
    outside: Outside<'a, D, K>,
    served: &mut Option<Served>,
) -> Outside<'a, D, K>
    requires crew { IsCrew table.now jobs.old.queue (length refused.now) crew }
    requires jobs { MayBeTaken table.now (length refused.now) jobs.old }
    requires log { MayGoOn D.LogDisk tail table.now outside.disk.now }
    ensures turned { IsSomeAnd served.new (HasTurned D.LogDisk K.Sink table.now jobs.old.queue (length refused.now) wait
        tail voice crew.flusher_seat outside.entry.disk.now result.disk.now outside.entry.out.now result.out.now) }
    ensures disk { result.disk.ghost_name ≡ outside.entry.disk.ghost_name }
    ensures out { result.out.ghost_name ≡ outside.entry.out.ghost_name }
{
    let mut relief = relief_of(table, crew.flusher_seat, crew.batch, outside, tail, voice);
    let mut ends = None;
    let _relief = serve_crew(
        rt,
        table,
        jobs,
        refused,
        wait,
        gate,
        crew.hands,
        &mut relief,
        &mut ends,
    );
    let Some(ends) = ends else { unreachable!() };
    take_apart(relief, ends, served)
}

/// Closes the table, once all seats were taken in, so that it is known which transfers were taken.
fn close(table: LogTable, served: Option<Served>) -> RunEnd
    requires served { IsSomeAnd served (IsOver table) }
    ensures { IsSomeAnd served (IsEndOf table result) }
{
    let Some(served) = served else { unreachable!() };
    RunEnd {
        fault: served.fault,
        done: served.done,
        refused: served.refused,
        ends: served.ends,
        closed: table.close(served.flusher_seat),
    }
}

/// Makes the transfers, and closes the table.
pub fn run_transfers<R: Threads + Wait + Clock + Sync, D: LogDisk, K: Sink, G: Gate + Sync>(
    rt: &R,
    prepared: Prepared,
    disk: &mut D,
    tail: Tail,
    out: &mut K,
    voice: Voice,
    wait: bool,
    gate: &G,
) -> RunEnd
    requires prepared { IsPrepared prepared }
    requires opened { (opened : OpenedList)
        × IsOpened D.LogDisk disk.old tail opened prepared.jobs.queue.first (key_of prepared.table) }
    ensures ended { (opened : OpenedList) → IsOpened D.LogDisk disk.old tail opened prepared.jobs.queue.first (key_of prepared.table)
        → HasEnded D.LogDisk K.Sink prepared opened tail voice wait disk.old disk.new out.old out.new result }
{
    let table = prepared.table;
    let mut jobs = prepared.jobs;
    let mut served = None;
    let _outside = run_crew(
        rt,
        &table,
        &mut jobs,
        prepared.crew,
        prepared.refused.as_slice(),
        wait,
        gate,
        tail,
        voice,
        Outside { disk, out },
        &mut served,
    );
    close(table, served)
}
