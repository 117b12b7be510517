//! A log that begins with a head, made in one piece.

ghost use Rattle.segment_file.specs.Calls.{HasShutGate, HasStableGate};
ghost use Rattle.segment_cut.specs.Calls.{CreatesCut};

use log_disk::LogDisk;
use segment_file::{DiskFault, Tail, close_gate, write_gated};
use segment_head::Head;

/// Makes a log with this head and no record on a disk without one, and answers where it goes on. At each moment a crash
/// leaves no log, or the head and nothing else; after Ok it leaves the latter.
pub fn create_cut<D: LogDisk>(disk: &mut D, head: &mut Head) -> Result<Tail, DiskFault>
    requires stable { HasStableGate D.LogDisk 0 disk.old }
    ensures { CreatesCut D.LogDisk 6 7 head.old head.new disk.old disk.new result }
{
    close_gate(disk, 0)?;
    create_headed(disk, head)
}

/// Writes the head behind the first gate, in one piece with the next gate, and then opens the first.
fn create_headed<D: LogDisk>(disk: &mut D, head: &Head) -> Result<Tail, DiskFault>
    requires shut { HasShutGate D.LogDisk 0 disk.old }
    ensures { CreatesCut D.LogDisk 4 4 head.now head.now disk.old disk.new result }
{
    let sealed = head.sealed();
    write_gated(disk, 0, sealed)?;
    Ok(Tail {
        at: sealed.len() as u64,
        next: head.lsn(),
    })
}
