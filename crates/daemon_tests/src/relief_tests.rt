//! A worker that waits for the disk, in the one thread that flushes.
ghost use Rattle.std.specs.Prelude.{◌≡◌, All};
ghost use Rattle.log_table.specs.Seats.{IsOf};
ghost use Rattle.lock_core.specs.Transfers.{IsAllowedJob};
ghost use Rattle.segment_file.specs.StandingLog.{IsStableGate};
ghost use Rattle.commit_pipeline.specs.Turning.{MayTurn};
ghost use Rattle.run_rig.specs.Enlisted.{IsEnlisted};
ghost use Rattle.test_rig.specs.NotedJobs.{IsNew};

use cli_reports::recover_command::recover_command;
use cli_shared::Detail;
use cli_workers::FlushingRelief;
use commit_pipeline::{Daemon, DaemonFault, Voice};
use crossbeam_utils::sync::Key;
use log_disk::{LogDisk, OpenGate, Sink};
use log_table::{LogTable, Seat};
use lsn_space::Lsn;
use memory_disk::{MemoryDisk, MemorySink, MemorySource};
use run_rig::{CREATED, daemon_on, enlisted, jobs_of, recovered_balances, work_queue};
use std::alloc::Global;
use std::process::Abort;
use std::sync::Wait;
use std::test::Fail;
use test_rig::{table_of, worker};
use txn_runner::{Answer, Cause, Made, Queue, Relief, Row, Rows, Worked};

/// A relief that flushes, and first looks whether account 0 is held.
#[derive(Drop)]
struct Looking<'a, D: LogDisk, K: Sink> {
    flushing: FlushingRelief<'a, D, K>,
    table: &'a LogTable,
    seat: Seat,

    /// Whether each rest found it held.
    held: bool,
}

impl<'a, D: LogDisk, K: Sink> Relief for Looking<'a, D, K> {
    ghost use Rattle.std.specs.Prelude.{◌≡◌, ◌<◌, None, ⊤};
    ghost use Rattle.commit_pipeline.specs.Turning.{MayTurn};
    ghost use Rattle.log_table.specs.Seats.{IsOf};

    ghost ready = { λ relief. (relief.flushing.daemon.fault ≡ None → MayTurn D.LogDisk relief.flushing.daemon)
        × IsOf relief.table.now relief.seat × (0 < relief.table.now.accounts) };

    ghost later = { λ old new. ⊤ };

    fn begin(&mut self) {}

    fn rest(&mut self) {
        let word = self.table.load_account(&mut self.seat, 0);
        self.held = self.held && word.held();
        self.flushing.rest();
    }

    fn is_tired(&self) -> bool {
        self.flushing.is_tired()
    }

    fn sleep<R: Wait>(&mut self, _rt: &R, _key: Key<'_>) {
        self.rest();
    }

    fn between(&mut self, _made: Made, _lost: u32) {}

    ghost later_refl = { λ relief. tt };

    ghost later_trans = { λ first mid last before after. tt };
}

/// What a worker came to, its rows, what befell the daemon, and whether its accounts were held while it waited.
type Outcome = (Worked, Rows, Option<DaemonFault>, bool);

/// A new worker makes all transfers, and waits for the disk after each.
fn works<R: Wait, Q: Relief>(
    rt: &R,
    table: &LogTable,
    mut seat: Seat,
    queue: &Queue,
    mut rows: Rows,
    relief: &mut Q,
) -> (Worked, Rows)
    requires unused { IsNew table.now seat }
    requires rows { IsEnlisted queue.now rows }
    requires allowed { All (IsAllowedJob table.now.accounts) queue.now.script }
    requires relief { Q.ready relief.old }
{
    let worked = work_queue(
        rt, table, &mut seat, queue, &mut rows, relief, true, &OpenGate,
    );
    table.leave(&mut seat);
    (worked, rows)
}

/// The worker's relief looks whether account 0 is held, and then flushes; nothing else does.
fn looks_and_flushes<R: Wait, D: LogDisk>(
    rt: &R,
    table: &LogTable,
    seat: Seat,
    looker: Seat,
    queue: &Queue,
    rows: Rows,
    daemon: Daemon<D, MemorySink>,
) -> Outcome
    requires unused { IsNew table.now seat }
    requires rows { IsEnlisted queue.now rows }
    requires allowed { All (IsAllowedJob table.now.accounts) queue.now.script }
    requires looker { IsOf table.now looker }
    requires accounts { table.now.accounts ≡ 2 }
    requires daemon { MayTurn D.LogDisk daemon }
{
    let mut relief = Looking {
        flushing: FlushingRelief { daemon },
        table,
        seat: looker,
        held: true,
    };
    let (worked, rows) = works(rt, table, seat, queue, rows, &mut relief);
    let fault = relief.flushing.daemon.fault();
    (worked, rows, fault, relief.held)
}

/// A worker makes both transfers, and waits for the disk after each; only its relief flushes.
fn work_and_flush<R: Wait, D: LogDisk>(
    rt: &R,
    alloc: Global,
    disk: &mut D,
    sink: &mut MemorySink,
) -> Option<Outcome>
    requires { D.honest disk.old → IsStableGate 0 (D.images disk.old) }
{
    let Ok((table, mut flusher_seat)) = table_of(alloc, (100, 0), 4) else {
        return None;
    };
    let mut jobs = jobs_of(rt, alloc, b"pay 0 1 30\npay 1 0 30\n", 1)?;
    let rows = enlisted(alloc, &mut jobs, 0).ok()?;
    let mut seat = worker(&table, &mut flusher_seat, 0, 1);
    let looker = table.note(&mut seat);
    let daemon = daemon_on(
        alloc,
        (100, 0),
        &table,
        flusher_seat,
        disk,
        sink,
        Voice::Lines,
    )?;
    let queue = jobs.queue();
    Some(looks_and_flushes(rt, &table, seat, looker, queue, rows, daemon))
}

/// The run of the worker over a disk and a sink in memory, and these two behind it.
type Ran = (Outcome, MemoryDisk, MemorySink);

/// Both transfers, where these calls of the disk fail.
fn run_over<R: Wait>(rt: &R, alloc: Global, failing: &[u64]) -> Result<Ran, Fail> {
    let mut disk = MemoryDisk::make(alloc, &[], 20_000, failing)?;
    let mut sink = MemorySink::make(alloc, 100, &[])?;
    let Some(outcome) = work_and_flush(rt, alloc, &mut disk, &mut sink) else {
        return Err(Fail::new("no memory"));
    };
    Ok((outcome, disk, sink))
}

/// The worker ended so, and this befell the daemon.
fn has_ended(
    rt: &impl Abort,
    failing: &[u64],
    ended: (Worked, Option<DaemonFault>),
    wanted: (Worked, Option<DaemonFault>),
) {
    assert_eq!(rt; ended, wanted, "calls {failing:?} fail");
}

/// The daemon wrote this.
fn has_written(rt: &impl Abort, sink: &MemorySink, text: &[u8]) {
    assert_eq!(rt; sink.bytes(), text);
}

/// The row of a transfer that was seen to be durable.
fn durable_row(txn: u32, end: u32) -> Row {
    Row {
        txn,
        answer: Answer::Done,
        end: Lsn::new(end),
        seen: Lsn::new(end),
    }
}

/// Both transfers were seen to be durable.
fn has_both_rows(rt: &impl Abort, rows: &Rows) {
    let wanted = [durable_row(1, 9), durable_row(2, 14)];
    assert_eq!(rt; rows.as_slice(), wanted.as_slice());
}

#[test]
fn a_waiting_worker_flushes(rt: HostRuntime) -> Result<(), Fail> {
    let (outcome, mut disk, sink) = run_over(&rt, rt.alloc(), &[])?;
    let (worked, rows, fault, held) = outcome;
    has_ended(&rt, &[], (worked, fault), (Worked::All, None));
    assert!(rt; held, "the accounts went back before the end was durable");
    has_both_rows(&rt, &rows);
    has_written(&rt, &sink, b"done 1 9\ndone 2 14\n");
    assert!(rt; recovered_balances(rt.alloc(), &mut disk) == Some((100, 0)));
    Ok(())
}

/// A call of the disk, and how many transfers a worker ends where it fails: a flush makes four
/// calls.
const STOPS: &[(u64, usize)] = &[
    (CREATED + 1, 0),
    (CREATED + 4, 0),
    (CREATED + 5, 1),
    (CREATED + 8, 1),
    (CREATED + 9, 2),
];

/// Where this call of the disk fails, so many transfers are made. The relief flushes no more, and the worker reads the stop word,
/// unless both were made before.
fn makes_before<R: Wait + Abort>(
    rt: &R,
    alloc: Global,
    call: u64,
    made: usize,
) -> Result<(), Fail> {
    let failing = [call];
    let ((worked, rows, fault, _), _, _) = run_over(rt, alloc, &failing)?;
    let count = rows.as_slice().len();
    assert!(rt; count == made, "{count} are made before call {call}");
    let stopped = (Worked::Cut(Cause::Stop(1)), Some(DaemonFault::DiskFault));
    let wanted = if made < 2 {
        stopped
    } else {
        (Worked::All, None)
    };
    has_ended(rt, &failing, (worked, fault), wanted);
    Ok(())
}

/// A flush makes four calls of the disk. Where one fails, the relief flushes no more, and the worker reads the stop word.
#[test]
fn a_waiting_worker_stops_where_the_disk_fails(rt: HostRuntime) -> Result<(), Fail> {
    for (call, made) in STOPS {
        makes_before(&rt, rt.alloc(), *call, *made)?;
    }
    Ok(())
}

const PICKS: &[u64] = &[0, 1, 2, 3, 77, 12_345];

/// What `recover` writes of a disk.
fn recovered_text<R: Abort>(rt: &R, alloc: Global, disk: &MemoryDisk) -> Result<MemorySink, Fail> {
    let Ok(mut source) = MemorySource::make(alloc, disk.bytes(), 7, &[]) else {
        return Err(Fail::new("no memory"));
    };
    let mut text = MemorySink::make(alloc, 300, &[])?;
    let detail = recover_command(alloc, &mut source, &mut text);
    assert!(rt; detail == Detail::Fine, "{detail:?}");
    Ok(text)
}

/// The text is that of one transfer, or of both.
fn is_one_or_both(rt: &impl Abort, pick: u64, text: &[u8]) {
    let first: &[u8] = b"lsn 9\n0 70\n1 30\n";
    let both: &[u8] = b"lsn 14\n0 100\n1 0\n";
    assert!(rt; text == first || text == both, "{pick}: {text:?}");
}

/// The second flush fails at its gate's sync, and this crash leaves one transfer or both.
fn leaves_one_or_both<R: Wait + Abort>(rt: &R, alloc: Global, pick: u64) -> Result<(), Fail> {
    let ((_, _, fault, _), disk, sink) = run_over(rt, alloc, &[CREATED + 8])?;
    assert!(rt; fault == Some(DaemonFault::DiskFault), "{fault:?}");
    has_written(rt, &sink, b"done 1 9\n");
    let text = recovered_text(rt, alloc, &disk.crash(pick))?;
    is_one_or_both(rt, pick, text.bytes());
    Ok(())
}

/// The fourth sync is that of the second flush's gate. Its line is not written, and a crash leaves one transfer or both.
#[test]
fn no_line_after_a_failed_sync(rt: HostRuntime) -> Result<(), Fail> {
    for pick in PICKS {
        leaves_one_or_both(&rt, rt.alloc(), *pick)?;
    }
    Ok(())
}
