//! A batch that is written behind an open gate, in a file whose first gate is still closed.

ghost use Rattle.std.specs.Prelude.{◌≤◌, ◌<◌, length};
ghost use Rattle.segment_file.specs.Calls.{LiesWithin, WritesOpened};

use crate::batch::{Batch, put_before, put_count};
use crate::gated_write::{DiskFault, write_unsynced};
use crate::layout::{CLOSED, LAST_OF_MAGIC, MOST_UNITS, OPEN};
use log_disk::LogDisk;

/// The byte of the magic bytes that stands before a batch's count.
const LAST_MAGIC: u8 = b'1';

/// Writes the batch behind an open gate, and the next gate, closed, in one piece. Nothing is synced: in a file whose
/// first gate isn't open the batch doesn't count yet.
pub fn write_opened<D: LogDisk>(disk: &mut D, at: u64, batch: &mut Batch) -> Result<(), DiskFault>
    requires some { 0 < length batch.old.units }
    requires most { length batch.old.units ≤ MOST_UNITS }
    requires within { LiesWithin D.LogDisk at disk.old }
    ensures { WritesOpened D.LogDisk at batch.old batch.new disk.old disk.new result }
{
    let count = batch.count();
    put_count(&mut batch.bytes, count);
    put_before(&mut batch.bytes, OPEN);
    let len = batch.bytes.len();
    batch.bytes.push_reserved(CLOSED);
    let written = write_unsynced(disk, at, batch.bytes.as_slice().split_at(LAST_OF_MAGIC).1);
    batch.bytes.truncate(len);
    put_before(&mut batch.bytes, LAST_MAGIC);
    written
}
