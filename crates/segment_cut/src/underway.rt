//! A log that begins with a head, written batch by batch behind its closed first gate.

ghost use Rattle.std.specs.Prelude.{◌≤◌, ◌<◌, ◌+◌, ◌*◌, ◌^◌, List, ℕ, length};
ghost use Rattle.log_disk.specs.Calls.{Settles, Uses};
ghost use Rattle.lsn_space.specs.declared.lsn.TheConstants.{LAST};
ghost use Rattle.segment_file.specs.declared.layout.TheConstants.{MOST_UNITS};
ghost use Rattle.segment_file.specs.declared.scan_result.Tail.{Tail};
ghost use Rattle.segment_file.specs.Calls.{HasStableGate};
ghost use Rattle.segment_file.specs.Log.{Log};
ghost use Rattle.segment_cut.specs.Calls.{AddsCut, BeginsCut, IsOnDisk, OpensCut};

use log_disk::LogDisk;
use lsn_space::Lsn;
use segment_file::{
    Batch, DiskFault, OPEN, Tail, close_gate, write_opened, write_synced, write_unsynced,
};
use segment_head::Head;

/// Closes the first gate of a disk without a log, and writes the head and the next gate, closed, behind it. Until
/// `open_cut` a crash leaves no log.
pub fn begin_cut<D: LogDisk>(disk: &mut D, head: &Head) -> Result<Tail, DiskFault>
    requires stable { HasStableGate D.LogDisk 0 disk.old }
    ensures { BeginsCut D.LogDisk head.now disk.old disk.new result }
{
    close_gate(disk, 0)?;
    let sealed = head.sealed();
    write_unsynced(disk, 1, sealed)?;
    Ok(Tail {
        at: sealed.len() as u64,
        next: head.lsn(),
    })
}

/// Adds the batch, behind an open gate, to a log that is being written, and answers where that then goes on.
pub fn add_cut<D: LogDisk>(disk: &mut D, tail: Tail, batch: &mut Batch) -> Result<Tail, DiskFault>
    requires some { 0 < length batch.old.units }
    requires most { length batch.old.units ≤ MOST_UNITS }
    requires fits { tail.next + length batch.old.units ≤ LAST }
    // So that no place passes 64 bits: each unit takes 8 bytes, and each batch 5 more and has a unit.
    requires place { tail.at ≤ 2 ^ 63 + 16 * tail.next }
    requires underway { D.honest disk.old → (log : Log) × (batches : List (List ℕ)) × IsOnDisk D.LogDisk disk.old tail log batches }
    ensures { AddsCut D.LogDisk tail batch.old batch.new disk.old disk.new result }
{
    let count = batch.count();
    write_opened(disk, tail.at, batch)?;
    Ok(Tail {
        at: tail.at + 5 + 8 * count as u64,
        next: Lsn::new(tail.next.units() + count),
    })
}

/// Makes a log that is being written count: what was written is made stable, and then the first gate is opened. At each
/// moment a crash leaves no log, or all of it; after Ok it leaves the latter.
pub fn open_cut<D: LogDisk>(disk: &mut D) -> Result<(), DiskFault>
    requires underway { D.honest disk.old → (tail : Tail) × (log : Log) × (batches : List (List ℕ))
        × IsOnDisk D.LogDisk disk.old tail log batches }
    ensures { OpensCut D.LogDisk disk.old disk.new result }
{
    sync_all(disk)?;
    write_synced(disk, 0, &[OPEN])
}

/// Makes what was written stable.
fn sync_all<D: LogDisk>(disk: &mut D) -> Result<(), DiskFault>
    ensures settles { Settles D.LogDisk disk.old disk.new result }
    ensures uses { Uses D.LogDisk 1 1 disk.old disk.new result }
{
    disk.sync()?;
    Ok(())
}
