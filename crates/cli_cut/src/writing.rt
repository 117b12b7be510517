//! A log of the second format, written in batches of whole records.

ghost use Rattle.std.specs.Prelude.{◌≡◌, ◌≤◌, ◌+◌, ◌++◌, length};
ghost use Rattle.cli_cut.specs.Writing.{CanWriteLog, WritesLog};

use log_disk::LogDisk;
use log_record::read;
use segment_cut::{add_cut, begin_cut, open_cut};
use segment_file::{Batch, DiskFault, MOST_UNITS};
use segment_head::Head;

/// Writes the new log: its head, and the records that the units spell in batches, each of as many whole records as fit.
pub(crate) fn write_log<D: LogDisk>(
    disk: &mut D,
    head: &Head,
    units: &[u64],
    batch: &mut Batch,
) -> Result<(), DiskFault>
    requires { CanWriteLog D.LogDisk head.now units.now batch.old disk.old }
    ensures { WritesLog D.LogDisk head.now units.now disk.old disk.new result }
{
    let mut tail = begin_cut(disk, head)?;
    let mut rest = units;
    'records: while let Ok((_, size)) = read(rest) {
        if batch.count() as usize + size > MOST_UNITS as usize {
            tail = add_cut(disk, tail, batch)?;
            batch.clear();
        }
        let (own, behind) = rest.split_at(size);
        push_all(batch, own);
        rest = behind;
    }
    if batch.count() > 0 {
        add_cut(disk, tail, batch)?;
    }
    open_cut(disk)
}

/// Adds the units of a record.
fn push_all(batch: &mut Batch, units: &[u64])
    requires { length batch.old.units + length units.now ≤ batch.old.room }
    ensures { batch.new ≡ record batch.old { units = batch.old.units ++ units.now } }
{
    'units: for unit in units {
        batch.push(*unit);
    }
}
