//! A batch that is added to a log.

ghost use Rattle.std.specs.Prelude.{◌≤◌, ◌<◌, ◌+◌, ◌-◌, ◌*◌, ◌^◌, length};
ghost use Rattle.lsn_space.specs.declared.lsn.TheConstants.{LAST};
ghost use Rattle.segment_file.specs.Calls.{HasShutGate};
ghost use Rattle.segment_file.specs.Changes.{Appends};
ghost use Rattle.segment_file.specs.StandingLog.{tail_after};

use crate::batch::{Batch, put_count};
use crate::gated_write::{DiskFault, write_gated};
use crate::layout::{CLOSED, MAGIC, MOST_UNITS};
use crate::scan_result::Tail;
use log_disk::LogDisk;

/// Adds the batch to the log, and answers where the log then goes on. At each moment a crash leaves the list before,
/// or the list with the whole batch; after Ok it leaves the latter. After an Err the log must be opened again.
pub fn append<D: LogDisk>(disk: &mut D, tail: Tail, batch: &mut Batch) -> Result<Tail, DiskFault>
    requires some { 0 < length batch.old.units }
    requires most { length batch.old.units ≤ MOST_UNITS }
    requires fits { tail.next + length batch.old.units ≤ LAST }
    // So that no place passes 64 bits: each unit takes 8 bytes, and each batch 5 more and has a unit.
    requires place { tail.at ≤ 2 ^ 63 + 16 * tail.next }
    requires shut { HasShutGate D.LogDisk tail.at disk.old }
    ensures { Appends D.LogDisk (λ t. t) tail batch.old batch.new disk.old disk.new result }
{
    let after = tail.after(batch.count());
    append_sealed(disk, tail, batch)?;
    Ok(after)
}

/// Writes the batch behind the gate at the tail, in one piece with the next gate, and then opens the gate.
fn append_sealed<D: LogDisk>(disk: &mut D, tail: Tail, batch: &mut Batch) -> Result<(), DiskFault>
    requires some { 0 < length batch.old.units }
    requires most { length batch.old.units ≤ MOST_UNITS }
    requires fits { tail.next + length batch.old.units ≤ LAST }
    requires place { tail.at < 2 ^ 64 - 1 }
    requires shut { HasShutGate D.LogDisk tail.at disk.old }
    ensures { Appends D.LogDisk (λ _. tail_after tail batch.old.units) tail batch.old batch.new disk.old disk.new result }
{
    let count = batch.count();
    put_count(&mut batch.bytes, count);
    let len = batch.bytes.len();
    batch.bytes.push_reserved(CLOSED);
    let appended = write_gated(disk, tail.at, batch.bytes.as_slice().split_at(MAGIC).1);
    batch.bytes.truncate(len);
    appended
}
