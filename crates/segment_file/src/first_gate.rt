//! Whether the first gate of a file is open.

ghost use Rattle.std.specs.Prelude.{◌≡◌, ◌↔◌, IsTrue, List, ℕ, length, take};
ghost use Rattle.segment_file.specs.Calls.{LooksFor};
ghost use Rattle.segment_file.specs.File.{BeginsOpen};

use crate::gated_write::DiskFault;
use crate::layout::OPEN;
use log_disk::LogDisk;

/// Whether the first gate of the file is open, so that a log may be there. The length is asked for, since a read may
/// give less than is there.
pub fn has_open_gate<D: LogDisk>(disk: &mut D) -> Result<bool, DiskFault>
    ensures { LooksFor D.LogDisk (BeginsOpen (D.reads disk.old)) 2 disk.old disk.new result }
{
    let len = disk.len()?;
    let mut first = [0];
    let count = disk.read_at(0, &mut first)?;
    Ok(opens(len, first.split_at(count).0))
}

/// Whether a file of this length opens with an open gate, by its first byte.
fn opens(len: u64, first: &[u8]) -> bool
    ensures { (file : List ℕ) → len ≡ length file → first.now ≡ take 1 file → IsTrue result ↔ BeginsOpen file }
{
    len >= 2 && matches!(first, [OPEN])
}
