//! Writes: with a sync, without one, and behind a gate that is opened once what it guards is stable.

ghost use Rattle.std.specs.Prelude.{◌<◌, ◌+◌, ◌-◌, ◌^◌};
ghost use Rattle.segment_file.specs.Calls.{LiesWithin, WritesGated, WritesSynced, WritesUnsynced};

use crate::layout::OPEN;
use log_disk::{Failed, LogDisk};

/// The disk failed, and what stands behind the last gate isn't known. The log must be opened again.
#[derive(Clone, Copy, Debug, PartialEq, Eq)]
pub struct DiskFault;

impl From<Failed> for DiskFault {
    fn from(_: Failed) -> Self {
        DiskFault
    }
}

/// Writes and syncs. Until it returns Ok a crash may leave the write torn.
pub fn write_synced<D: LogDisk>(disk: &mut D, at: u64, bytes: &[u8]) -> Result<(), DiskFault>
    requires { LiesWithin D.LogDisk at disk.old }
    ensures { WritesSynced D.LogDisk at bytes.now disk.old disk.new result }
{
    disk.write_at(at, bytes)?;
    disk.sync()?;
    Ok(())
}

/// Writes, and leaves it to a later sync to make that stable.
pub fn write_unsynced<D: LogDisk>(disk: &mut D, at: u64, bytes: &[u8]) -> Result<(), DiskFault>
    requires { LiesWithin D.LogDisk at disk.old }
    ensures { WritesUnsynced D.LogDisk at bytes.now disk.old disk.new result }
{
    disk.write_at(at, bytes)?;
    Ok(())
}

/// Writes a body behind a gate and syncs, and then opens the gate and syncs. So an open gate stands before a stable body.
pub fn write_gated<D: LogDisk>(disk: &mut D, at: u64, body: &[u8]) -> Result<(), DiskFault>
    requires place { at < 2 ^ 64 - 1 }
    requires within { LiesWithin D.LogDisk (at + 1) disk.old }
    ensures { WritesGated D.LogDisk at body.now disk.old disk.new result }
{
    write_synced(disk, at + 1, body)?;
    write_synced(disk, at, &[OPEN])
}
