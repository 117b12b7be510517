//! A transfer that a worker inserts and a daemon reports, with faults of the disk and of the sink.
ghost use Rattle.std.specs.Prelude.{◌≡◌, [], true, OnOk};
ghost use Rattle.log_disk.specs.Disk.{IsOnlyImage};
ghost use Rattle.memory_disk.specs.MemoryDisks.{ImagesOf};
ghost use Rattle.log_rule.specs.May.{MayLeave};
ghost use Rattle.log_table.specs.Seats.{IsOf, view_of};
ghost use Rattle.log_rule.specs.Views.{knows_all_enrolled};
ghost use Rattle.commit_pipeline.specs.Turning.{MayTurn};
ghost use Rattle.test_rig.specs.NotedJobs.{IsNew};

use commit_pipeline::{Daemon, DaemonFault, Turn, Voice};
use flusher::Drained;
use log_disk::{LogDisk, OpenGate};
use log_table::{LogTable, Seat};
use lsn_space::{Lsn, NoMemory};
use memory_disk::{MemoryDisk, MemorySink};
use run_rig::{CREATED, daemon_on, enlisted, thirties, work_queue};
use std::alloc::Global;
use std::process::Abort;
use std::sync::Wait;
use std::test::Fail;
use std::time::Clock;
use test_rig::{table_of, worker};
use txn_runner::{Worked, YieldRelief};

/// The log of the two accounts, and the transfer behind it.
const ONE_TRANSFER_LOG: [u8; 90] = [
    0x4f, b'A', b'E', b'T', b'H', b'E', b'R', b'1', 0, 0, 0, 4, //
    1, 2, 0, 0, 0, 0, 0, 0, 0, 0, 0, 0, 0, 0, 0, 100, //
    1, 2, 0, 1, 0, 0, 0, 0, 0, 0, 0, 0, 0, 0, 0, 0, //
    0x4f, 0, 0, 0, 5, //
    2, 2, 0, 0, 0, 0, 0, 1, 0xff, 0xff, 0xff, 0xe2, 0, 0, 0, 0, //
    2, 2, 0, 1, 0, 0, 0, 1, 0, 0, 0, 0x1e, 0, 0, 0, 0, //
    3, 1, 0, 1, 0, 0, 0, 1, 0,
];

/// A worker makes so many transfers of 30 from account 0 to account 1, from number 1 on, and waits for nothing.
fn transfer<R: Wait + Clock + Abort>(
    rt: &R,
    alloc: Global,
    table: &LogTable,
    seat: &mut Seat,
    times: u32,
)
    requires unused { IsNew table.now seat.old }
    requires accounts { table.now.accounts ≡ 2 }
    ensures seat { IsOf table.now seat.new }
    ensures may { MayLeave (view_of seat.new) }
{
    let Some(mut jobs) = thirties(rt, alloc, times, 1) else {
        panic!(rt; "no memory");
    };
    let Ok(mut rows) = enlisted(alloc, &mut jobs, 0) else {
        panic!(rt; "no memory");
    };
    let queue = jobs.queue();
    let mut relief = YieldRelief::new(rt);
    let worked = work_queue(
        rt,
        table,
        seat,
        queue,
        &mut rows,
        &mut relief,
        false,
        &OpenGate,
    );
    assert!(rt; worked == Worked::All, "the transfers were not made");
}

/// Whether the log has come to its end.
fn ask(daemon: &mut Daemon<MemoryDisk, MemorySink>) -> Drained
    requires ready { MayTurn ⟦<MemoryDisk as LogDisk>⟧ daemon.old }
    requires told { knows_all_enrolled (view_of daemon.old.flusher.seat).standing ≡ true }
    ensures ready { MayTurn ⟦<MemoryDisk as LogDisk>⟧ daemon.new }
    ensures told { knows_all_enrolled (view_of daemon.new.flusher.seat).standing ≡ true }
{
    daemon.ask()
}

/// One turn, which is one of several.
fn turn(daemon: &mut Daemon<MemoryDisk, MemorySink>) -> Result<Turn, DaemonFault>
    requires ready { MayTurn ⟦<MemoryDisk as LogDisk>⟧ daemon.old }
    requires told { knows_all_enrolled (view_of daemon.old.flusher.seat).standing ≡ true }
    ensures ready { OnOk result (MayTurn ⟦<MemoryDisk as LogDisk>⟧ daemon.new) }
    ensures told { knows_all_enrolled (view_of daemon.new.flusher.seat).standing ≡ true }
{
    daemon.turn()
}

/// Whether the log has come to its end, and what a turn then does.
fn ask_and_turn(daemon: &mut Daemon<MemoryDisk, MemorySink>) -> Result<(Drained, Turn), DaemonFault>
    requires ready { MayTurn ⟦<MemoryDisk as LogDisk>⟧ daemon.old }
    requires told { knows_all_enrolled (view_of daemon.old.flusher.seat).standing ≡ true }
    ensures ready { OnOk result (MayTurn ⟦<MemoryDisk as LogDisk>⟧ daemon.new) }
    ensures told { knows_all_enrolled (view_of daemon.new.flusher.seat).standing ≡ true }
{
    let drained = ask(daemon);
    let turn = turn(daemon)?;
    Ok((drained, turn))
}

/// What a daemon answers while a worker that inserted a transfer is active, and once it has ended.
fn report_worker<R: Wait + Clock + Abort>(
    rt: &R,
    alloc: Global,
    table: &LogTable,
    mut seat: Seat,
    daemon: &mut Daemon<MemoryDisk, MemorySink>,
) -> Result<[(Drained, Turn); 2], DaemonFault>
    requires unused { IsNew table.now seat }
    requires accounts { table.now.accounts ≡ 2 }
    requires ready { MayTurn ⟦<MemoryDisk as LogDisk>⟧ daemon.old }
    requires told { knows_all_enrolled (view_of daemon.old.flusher.seat).standing ≡ true }
{
    transfer(rt, alloc, table, &mut seat, 1);
    let active = ask_and_turn(daemon)?;
    table.leave(&mut seat);
    let at_end = ask_and_turn(daemon)?;
    Ok([active, at_end])
}

/// The same, of a daemon over this disk and this sink.
fn report_one<R: Wait + Clock + Abort>(
    rt: &R,
    alloc: Global,
    disk: &mut MemoryDisk,
    sink: &mut MemorySink,
) -> Option<[(Drained, Turn); 2]>
    requires { IsOnlyImage [] (ImagesOf disk.old) }
{
    let Ok((table, mut flusher_seat)) = table_of(alloc, (100, 0), 4) else {
        return None;
    };
    let seat = worker(&table, &mut flusher_seat, 0, 1);
    let mut daemon = daemon_on(
        alloc,
        (100, 0),
        &table,
        flusher_seat,
        disk,
        sink,
        Voice::Lines,
    )?;
    report_worker(rt, alloc, &table, seat, &mut daemon).ok()
}

/// The daemon wrote this, and the log of one transfer is on the disk.
fn has_left(rt: &impl Abort, disk: &MemoryDisk, sink: &MemorySink, text: &[u8]) {
    has_bytes(rt, "sink", sink.bytes(), text);
    has_bytes(rt, "disk", disk.bytes(), ONE_TRANSFER_LOG.as_slice());
}

fn has_bytes(rt: &impl Abort, place: &str, bytes: &[u8], wanted: &[u8]) {
    assert_eq!(rt; bytes, wanted, "{place}");
}

#[test]
fn one_transfer(rt: HostRuntime) -> Result<(), Fail> {
    let mut disk = MemoryDisk::make(rt.alloc(), &[], 1000, &[])?;
    let mut sink = MemorySink::make(rt.alloc(), 100, &[])?;
    let told = report_one(&rt, rt.alloc(), &mut disk, &mut sink);
    let to = Lsn::new(9);
    let first = (Drained::Active(1), Turn::Sent { lines: 1, to });
    assert_eq!(rt; told, Some([first, (Drained::At(to), Turn::Idle)]));
    has_left(&rt, &disk, &sink, b"done 1 9\n");
    Ok(())
}

/// What a daemon that only counts answers once the worker has ended, before any turn and at the end, and what it counted.
fn count_one<R: Wait + Clock + Abort>(
    rt: &R,
    alloc: Global,
    disk: &mut MemoryDisk,
    sink: &mut MemorySink,
) -> Option<(Drained, Lsn, [u64; 2])>
    requires { IsOnlyImage [] (ImagesOf disk.old) }
{
    let Ok((table, mut flusher_seat)) = table_of(alloc, (100, 0), 4) else {
        return None;
    };
    let mut seat = worker(&table, &mut flusher_seat, 0, 1);
    let mut daemon = daemon_on(
        alloc,
        (100, 0),
        &table,
        flusher_seat,
        disk,
        sink,
        Voice::Count,
    )?;
    transfer(rt, alloc, &table, &mut seat, 1);
    table.leave(&mut seat);
    let behind = ask(&mut daemon);
    let end = daemon.run_until_drained(rt).ok()?;
    Some((behind, end, [daemon.done(), daemon.refused()]))
}

#[test]
fn behind_until_sent(rt: HostRuntime) -> Result<(), Fail> {
    let mut disk = MemoryDisk::make(rt.alloc(), &[], 1000, &[])?;
    let mut sink = MemorySink::make(rt.alloc(), 100, &[])?;
    let told = count_one(&rt, rt.alloc(), &mut disk, &mut sink);
    let (exposed, durable) = (Lsn::new(9), Lsn::new(4));
    assert_eq!(rt;
        told,
        Some((Drained::Behind { exposed, durable }, exposed, [1, 0]))
    );
    has_left(&rt, &disk, &sink, b"");
    Ok(())
}

/// The stop word that a worker reads after one turn, and what the turn answers, where these calls of the disk and of the
/// sink fail.
fn faulty_turn<R: Wait + Clock + Abort>(
    rt: &R,
    alloc: Global,
    disk_failing: &[u64],
    sink_failing: &[u64],
) -> Result<(Result<Turn, DaemonFault>, u64), NoMemory> {
    let (table, mut flusher_seat) = table_of(alloc, (100, 0), 4)?;
    let mut seat = worker(&table, &mut flusher_seat, 0, 1);
    let mut disk = MemoryDisk::make(alloc, &[], 1000, disk_failing)?;
    let mut sink = MemorySink::make(alloc, 100, sink_failing)?;
    let (disk, sink) = (&mut disk, &mut sink);
    let daemon = daemon_on(
        alloc,
        (100, 0),
        &table,
        flusher_seat,
        disk,
        sink,
        Voice::Lines,
    );
    let Some(mut daemon) = daemon else {
        return Err(NoMemory);
    };
    transfer(rt, alloc, &table, &mut seat, 1);
    let answer = turn(&mut daemon);
    Ok((answer, table.load_stop(&mut seat)))
}

/// Which calls of the disk and of the sink fail, what befalls the daemon, and the stop word.
const FAULTS: &[(&[u64], &[u64], Option<DaemonFault>, u64)] = &[
    (&[CREATED + 1], &[], Some(DaemonFault::DiskFault), 1),
    (&[CREATED + 2], &[], Some(DaemonFault::DiskFault), 1),
    (&[CREATED + 3], &[], Some(DaemonFault::DiskFault), 1),
    (&[CREATED + 4], &[], Some(DaemonFault::DiskFault), 1),
    (&[], &[1], Some(DaemonFault::WriteFault), 2),
    (&[], &[], None, 0),
];

/// A turn answers with this fault, or that one transfer was sent; and a worker reads this stop word.
fn tells<R: Wait + Clock + Abort>(
    rt: &R,
    alloc: Global,
    disk_failing: &[u64],
    sink_failing: &[u64],
    fault: Option<DaemonFault>,
    stop: u64,
) -> Result<(), Fail> {
    let to = Lsn::new(9);
    let answer = match fault {
        Some(fault) => Err(fault),
        None => Ok(Turn::Sent { lines: 1, to }),
    };
    let told = faulty_turn(rt, alloc, disk_failing, sink_failing)?;
    assert_eq!(rt; told, (answer, stop), "{disk_failing:?} {sink_failing:?}");
    Ok(())
}

#[test]
fn faults_are_told_by_the_stop_word(rt: HostRuntime) -> Result<(), Fail> {
    for (disk_failing, sink_failing, fault, stop) in FAULTS {
        tells(&rt, rt.alloc(), disk_failing, sink_failing, *fault, *stop)?;
    }
    Ok(())
}

/// What the one turn answers that tells of three transfers, and what the daemon has counted then.
fn three_in_a_turn<R: Wait + Clock + Abort>(
    rt: &R,
    alloc: Global,
    sink: &mut MemorySink,
) -> Option<(Result<Turn, DaemonFault>, [u64; 2])> {
    let Ok((table, mut flusher_seat)) = table_of(alloc, (100, 0), 4) else {
        return None;
    };
    let mut seat = worker(&table, &mut flusher_seat, 0, 1);
    let mut disk = MemoryDisk::make(alloc, &[], 1000, &[]).ok()?;
    let mut daemon = daemon_on(
        alloc,
        (100, 0),
        &table,
        flusher_seat,
        &mut disk,
        sink,
        Voice::Lines,
    )?;
    transfer(rt, alloc, &table, &mut seat, 3);
    let answer = turn(&mut daemon);
    Some((answer, [daemon.done(), daemon.refused()]))
}

/// A sink's room, the writes that fail; whether the turn is Ok, and what is held then.
const TOGETHER: &[(usize, &[u64], bool, &[u8])] = &[
    (100, &[2], true, b"done 1 9\ndone 2 14\ndone 3 19\n"),
    (100, &[1], false, b""),
    (12, &[], false, b"done 1 9\ndon"),
];

/// The turn is Ok or not, and has counted all three either way.
fn has_counted_three(
    rt: &impl Abort,
    found: Option<(Result<Turn, DaemonFault>, [u64; 2])>,
    fine: bool,
) {
    let to = Lsn::new(19);
    let answer = match fine {
        true => Ok(Turn::Sent { lines: 3, to }),
        false => Err(DaemonFault::WriteFault),
    };
    assert_eq!(rt; found, Some((answer, [3, 0])));
}

#[test]
fn lines_of_a_turn_are_one_write(rt: HostRuntime) -> Result<(), Fail> {
    for (room, failing, fine, text) in TOGETHER {
        let mut sink = MemorySink::make(rt.alloc(), *room, failing)?;
        has_counted_three(&rt, three_in_a_turn(&rt, rt.alloc(), &mut sink), *fine);
        has_bytes(&rt, "sink", sink.bytes(), text);
    }
    Ok(())
}
