//! A gate that is shut, so that what is written behind it doesn't count.

ghost use Rattle.std.specs.Prelude.{◌≡◌, ◌≤◌, ◌^◌, ◌∷◌, ◌⊎◌, ◌↔◌, [], IsTrue};
ghost use Rattle.segment_file.specs.Calls.{HasStableGate, LiesWithin, LooksFor};
ghost use Rattle.segment_file.specs.Changes.{ClosesGate, SettlesTail};
ghost use Rattle.segment_file.specs.StandingLog.{LacksGate};

use crate::gated_write::{DiskFault, write_synced};
use crate::layout::{CLOSED, OPEN};
use crate::scan_result::Tail;
use log_disk::LogDisk;
use lsn_space::Lsn;

/// Makes sure that the gate at a log's tail stays closed whatever is written behind it. Where its byte is missing, or is
/// a last byte 0x4F, a closed gate is written there. A crash leaves the list before at each moment.
pub fn settle<D: LogDisk>(disk: &mut D, at: u64, next: Lsn) -> Result<Tail, DiskFault>
    requires place { at ≤ 2 ^ 63 }
    requires within { LiesWithin D.LogDisk at disk.old }
    requires stable { HasStableGate D.LogDisk at disk.old }
    ensures { SettlesTail D.LogDisk at next disk.old disk.new result }
{
    close_gate(disk, at)?;
    Ok(Tail { at, next })
}

/// Writes a closed gate where none is, or where a last byte would become an open one.
pub fn close_gate<D: LogDisk>(disk: &mut D, at: u64) -> Result<(), DiskFault>
    requires within { LiesWithin D.LogDisk at disk.old }
    requires stable { HasStableGate D.LogDisk at disk.old }
    ensures { ClosesGate D.LogDisk at disk.old disk.new result }
{
    if lacks_gate(disk, at)? {
        write_synced(disk, at, &[CLOSED])
    } else {
        Ok(())
    }
}

/// Whether the gate at this place is missing, or is a last byte that any byte behind it would open.
fn lacks_gate<D: LogDisk>(disk: &mut D, at: u64) -> Result<bool, DiskFault>
    ensures { LooksFor D.LogDisk (LacksGate at (D.reads disk.old)) 1 disk.old disk.new result }
{
    let mut two = [0; 2];
    let count = disk.read_at(at, &mut two)?;
    Ok(ends_before_gate(two.split_at(count).0))
}

/// Whether the bytes of a file from a gate's place on are none, or a single byte 0x4F.
fn ends_before_gate(bytes: &[u8]) -> bool
    ensures { IsTrue result ↔ ((bytes.now ≡ []) ⊎ (bytes.now ≡ OPEN ∷ [])) }
{
    matches!(bytes, [] | [OPEN])
}
