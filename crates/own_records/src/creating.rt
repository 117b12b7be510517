//! A file of records that is made of a fresh one.

ghost use Rattle.std.specs.Prelude.{◌≡◌, length, OnOk, IsErr};
ghost use Rattle.log_disk.specs.Faults.{HasCause};
ghost use Rattle.log_disk.specs.Disk.{IsOnlyImage};
ghost use Rattle.segment_file.specs.Calls.{HasShutGate};
ghost use Rattle.own_records.specs.Kept.{Opens, AllFresh, StaysFresh, IsSettledFresh};

use crate::appending::End;
use crate::layout::{CLOSED, FIRST};
use log_disk::LogDisk;
use segment_file::{DiskFault, write_gated, write_synced};

/// Makes a file without records of a fresh one of that length.
pub fn create<D: LogDisk>(disk: &mut D, len: usize) -> Result<End, DiskFault>
    requires { IsSettledFresh D.LogDisk len disk.old }
    ensures opens { Opens D.LogDisk disk.old disk.new result }
    ensures cause { HasCause (D.faults disk.old) (D.faults disk.new) result }
{
    shut_first(disk, len)?;
    create_shut(disk)
}

/// Writes a closed first gate where none is, or where any byte behind it would open it.
fn shut_first<D: LogDisk>(disk: &mut D, len: usize) -> Result<(), DiskFault>
    requires { IsSettledFresh D.LogDisk len disk.old }
    ensures stays { StaysFresh D.LogDisk disk.old disk.new result }
    ensures cause { HasCause (D.faults disk.old) (D.faults disk.new) result }
{
    if len < 2 {
        return write_synced(disk, 0, &[CLOSED]);
    }
    Ok(())
}

/// Writes the magic bytes and a closed gate behind the first, and then opens the first.
fn create_shut<D: LogDisk>(disk: &mut D) -> Result<End, DiskFault>
    requires fresh { AllFresh D.LogDisk disk.old }
    requires shut { HasShutGate D.LogDisk 0 disk.old }
    ensures opens { Opens D.LogDisk disk.old disk.new result }
    ensures cause { HasCause (D.faults disk.old) (D.faults disk.new) result }
{
    write_gated(disk, 0, b"RECORDS\0")?;
    Ok(End { at: FIRST })
}
