//! Sixteen workers that make transfers with notes while a daemon sends them to a disk, and what the log holds behind them.
ghost use Rattle.std.specs.Prelude.{◌≡◌, true, All};
ghost use Rattle.std.specs.List.{AllByRecursion};
ghost use Rattle.log_table.specs.Seats.{view_of};
ghost use Rattle.log_rule.specs.Views.{knows_all_enrolled};
ghost use Rattle.segment_file.specs.StandingLog.{IsStableGate};
ghost use Rattle.lock_core.specs.Transfers.{IsAllowedJob};
ghost use Rattle.commit_pipeline.specs.Turning.{MayTurn};
ghost use Rattle.run_rig.specs.Enlisted.{IsHand};

use crate::group_records::{RECORDS, TRANSFERS, count_records};
use crate::group_script::noted_thirties;
use commit_pipeline::{Daemon, DaemonFault, Voice};
use log_disk::LogDisk;
use log_recovery::listed;
use lsn_space::Lsn;
use memory_disk::{MemoryDisk, MemorySink};
use run_rig::{daemon_on, hands, live_all, recovered_balances};
use segment_file::open_image;
use std::alloc::Global;
use std::sync::Wait;
use std::sync::atomic::{AtomicUsize, Ordering};
use std::test::Fail;
use std::thread::{Threads, join};
use std::time::Clock;
use test_rig::table_with_slots;

/// What account 0 begins with; account 1 begins with nothing.
const RICH: u64 = 100_000;

/// How many workers there are.
const WORKERS: u32 = 16;

/// The end of the log with all transfers, of seven units each.
const END: u32 = 4 + 7 * TRANSFERS;

/// Turns until the log is drained, or a fault comes.
fn drain<R: Wait + Clock, D: LogDisk>(
    rt: &R,
    daemon: &mut Daemon<D, MemorySink>,
) -> Result<Lsn, DaemonFault>
    requires ready { MayTurn D.LogDisk daemon.old }
    requires told { knows_all_enrolled (view_of daemon.old.flusher.seat).standing ≡ true }
{
    daemon.run_until_drained(rt)
}

/// Turns to the end, beside the workers' threads, over a table with one slot; also how many rows they have.
fn run_groups<R: Threads + Wait + Clock + Sync, D: LogDisk>(
    rt: &R,
    alloc: Global,
    disk: &mut D,
    sink: &mut MemorySink,
) -> Option<(usize, Result<Lsn, DaemonFault>)>
    requires { D.honest disk.old → IsStableGate 0 (D.images disk.old) }
{
    let Ok((table, mut flusher_seat)) = table_with_slots(alloc, (RICH, 0), 4, 1) else {
        return None;
    };
    let mut jobs = noted_thirties(rt, alloc, TRANSFERS, WORKERS)?;
    let crew = hands(alloc, &table, &mut flusher_seat, &mut jobs, WORKERS)?;
    let mut daemon = daemon_on(
        alloc,
        (RICH, 0),
        &table,
        flusher_seat,
        disk,
        sink,
        Voice::Lines,
    )?;
    let rows = AtomicUsize::new(0);
    let (t, queue, count) = (&table, jobs.queue(), &rows);
    let ((), answer) = join(
        rt,
        move ||
            requires { AllByRecursion (IsHand t.now queue.now) crew.items × All (IsAllowedJob t.now.accounts) queue.now.script }
        { live_all(rt, t, queue, crew, count) },
        move ||
            requires { MayTurn D.LogDisk daemon × (knows_all_enrolled (view_of daemon.flusher.seat).standing ≡ true) }
        { drain(rt, &mut daemon) },
    );
    Some((rows.load(Ordering::SeqCst), answer))
}

/// How many records of transfers the list of the disk's bytes has, and how many of them a second time.
fn counted<D: LogDisk>(alloc: Global, disk: &mut D) -> Option<(u32, u32)> {
    let bytes = open_image(alloc, disk).ok()?;
    let list = listed(alloc, bytes.as_slice()).ok()?;
    count_records(alloc, list.units.as_slice())
}

#[test]
fn sixteen_workers_in_groups_beside_a_daemon(rt: HostRuntime) -> Result<(), Fail> {
    let alloc = rt.alloc();
    let mut disk = MemoryDisk::make(alloc, &[], 1_000_000, &[])?;
    let mut sink = MemorySink::make(alloc, 100_000, &[])?;
    let Some((made, answer)) = run_groups(&rt, alloc, &mut disk, &mut sink) else {
        return Err(Fail::new("no memory"));
    };
    assert!(rt; made == TRANSFERS as usize, "{made} were made");
    assert!(rt; answer == Ok(Lsn::new(END)), "{answer:?}");
    let records = counted(alloc, &mut disk);
    assert!(rt; records == Some((RECORDS, 0)), "{records:?}");
    let balances = recovered_balances(alloc, &mut disk);
    assert!(rt; balances == Some((25_000, 75_000)), "{balances:?}");
    Ok(())
}
