//! A flusher and a daemon over a disk without a log, on which the log of two accounts is made.
ghost use Rattle.std.specs.Prelude.{◌≡◌, ℕ, true, length, IfOk, IfSome};
ghost use Rattle.log_table.specs.HiredWorkers.{HasHired};
ghost use Rattle.log_table.specs.Seats.{view_of, key_of};
ghost use Rattle.log_rule.specs.Views.{knows_all_enrolled};
ghost use Rattle.flusher.specs.Flushing.{MayFlush};
ghost use Rattle.commit_pipeline.specs.Turning.{MayTurn};
ghost use Rattle.run_rig.specs.Disks.{HasStableGate};

use commit_pipeline::{Daemon, Voice};
use flusher::Flusher;
use log_disk::LogDisk;
use log_table::{LogTable, Seat};
use lsn_space::NoMemory;
use memory_disk::MemorySink;
use segment_file::{Batch, create};
use std::alloc::Global;

/// The first units of the Genesis records of the two accounts.
const HEADERS: [u64; 2] = [0x0102_0000_0000_0000, 0x0102_0001_0000_0000];

/// The calls of the disk that make the log of the two accounts.
pub const CREATED: u64 = 7;

/// The Genesis records of the two accounts.
fn genesis(alloc: Global, balances: (u64, u64)) -> Result<Batch, NoMemory>
    ensures { IfOk result (λ batch. length batch.units ≡ 4) }
{
    let mut batch = Batch::make(alloc, 4)?;
    batch.push(HEADERS[0]);
    batch.push(balances.0);
    batch.push(HEADERS[1]);
    batch.push(balances.1);
    Ok(batch)
}

/// A flusher. Its table has a ring of 1024 units, over a log that ends at 4.
pub fn flusher_on<'a, D: LogDisk>(
    alloc: Global,
    balances: (u64, u64),
    table: &'a LogTable,
    seat: Seat,
    disk: &'a mut D,
) -> Option<Flusher<'a, D>>
    requires flusher_seat { (n : ℕ) × HasHired table.now n seat }
    requires start { (key_of table.now).start ≡ 4 }
    requires ring { table.now.ring ≡ 1024 }
    requires disk { HasStableGate D.LogDisk disk.old }
    ensures ready { IfSome result (MayFlush D.LogDisk) }
    ensures seat { IfSome result (λ flusher. flusher.seat ≡ seat) }
{
    let mut genesis = genesis(alloc, balances).ok()?;
    let batch = Batch::make(alloc, 1024).ok()?;
    let Ok(tail) = create(disk, &mut genesis) else {
        return None;
    };
    Some(Flusher::make(table, disk, seat, batch, tail))
}

/// A daemon over such a flusher.
pub fn daemon_on<'a, D: LogDisk>(
    alloc: Global,
    balances: (u64, u64),
    table: &'a LogTable,
    seat: Seat,
    disk: &'a mut D,
    sink: &'a mut MemorySink,
    voice: Voice,
) -> Option<Daemon<'a, D, MemorySink>>
    requires flusher_seat { (n : ℕ) × HasHired table.now n seat }
    requires start { (key_of table.now).start ≡ 4 }
    requires ring { table.now.ring ≡ 1024 }
    requires disk { HasStableGate D.LogDisk disk.old }
    ensures ready { IfSome result (MayTurn D.LogDisk) }
    ensures told { IfSome result (λ daemon. knows_all_enrolled (view_of daemon.flusher.seat).standing ≡ true) }
{
    let flusher = flusher_on(alloc, balances, table, seat, disk)?;
    Some(Daemon::make(flusher, sink, voice))
}
