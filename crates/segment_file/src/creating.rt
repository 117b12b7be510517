//! A log that is made on a disk without one.

ghost use Rattle.std.specs.Prelude.{◌≤◌, ◌<◌, length};
ghost use Rattle.segment_file.specs.Calls.{HasShutGate, HasStableGate};
ghost use Rattle.segment_file.specs.Changes.{Creates};
ghost use Rattle.segment_file.specs.Lengths.{new_tail};

use crate::batch::{Batch, put_count};
use crate::gated_write::{DiskFault, write_gated};
use crate::layout::{CLOSED, HEAD, MOST_UNITS};
use crate::scan_result::Tail;
use crate::settling::close_gate;
use log_disk::LogDisk;
use lsn_space::Lsn;

/// Makes a log of the batch on a disk without one, and answers where it goes on. At each moment a crash leaves no log,
/// or the log with the whole batch; after Ok it leaves the latter.
pub fn create<D: LogDisk>(disk: &mut D, batch: &mut Batch) -> Result<Tail, DiskFault>
    requires some { 0 < length batch.old.units }
    requires most { length batch.old.units ≤ MOST_UNITS }
    requires stable { HasStableGate D.LogDisk 0 disk.old }
    ensures { Creates D.LogDisk (λ t. t) 6 7 batch.old batch.new disk.old disk.new result }
{
    let count = batch.count();
    close_gate(disk, 0)?;
    create_sealed(disk, batch)?;
    Ok(Tail {
        at: HEAD as u64 + 1 + 8 * count as u64,
        next: Lsn::new(count),
    })
}

/// Writes the magic bytes and the batch behind the first gate, in one piece with the next gate, and then opens the first.
fn create_sealed<D: LogDisk>(disk: &mut D, batch: &mut Batch) -> Result<(), DiskFault>
    requires some { 0 < length batch.old.units }
    requires most { length batch.old.units ≤ MOST_UNITS }
    requires shut { HasShutGate D.LogDisk 0 disk.old }
    ensures { Creates D.LogDisk (λ _. new_tail batch.old.units) 4 4 batch.old batch.new disk.old disk.new result }
{
    let count = batch.count();
    put_count(&mut batch.bytes, count);
    let len = batch.bytes.len();
    batch.bytes.push_reserved(CLOSED);
    let created = write_gated(disk, 0, batch.bytes.as_slice());
    batch.bytes.truncate(len);
    created
}
