//! A record that is added.

ghost use Rattle.std.specs.Prelude.{◌≡◌, ◌≢◌, ◌≤◌, ◌<◌, length, IfErr, IsErrOf};
ghost use Rattle.log_disk.specs.Faults.{CountsWhere};
ghost use Rattle.segment_file.specs.Calls.{HasShutGate};
ghost use Rattle.own_records.specs.Kept.{Appends};

use crate::layout::{MOST_BYTES, MOST_PLACE};
use crate::record::sealed_text;
use log_disk::LogDisk;
use lsn_space::NoMemory;
use segment_file::{DiskFault, write_gated};
use std::alloc::Global;

/// Where the next record goes: the place in the file of the first gate that isn't open.
#[derive(Clone, Copy, Debug, PartialEq, Eq)]
pub struct End {
    pub at: u64,
}

/// Why a text wasn't kept, or with a fault of the disk perhaps was.
#[derive(Clone, Copy, Debug, PartialEq, Eq)]
pub enum AppendFault {
    /// The disk failed. The file must be opened again.
    Disk,

    /// The file is as long as it may be.
    Full,

    NoMemory,
}

impl From<DiskFault> for AppendFault {
    ghost use Rattle.std.specs.Prelude.{◌≡◌};
    ghost use Rattle.own_records.specs.declared.appending.AppendFault.TheVariants as fault;

    ghost from_gives = { λ _ f. f ≡ fault.Disk };

    fn from(_: DiskFault) -> Self {
        AppendFault::Disk
    }
}

impl From<NoMemory> for AppendFault {
    ghost use Rattle.std.specs.Prelude.{◌≡◌};
    ghost use Rattle.own_records.specs.declared.appending.AppendFault.TheVariants as fault;

    ghost from_gives = { λ _ f. f ≡ fault.NoMemory };

    fn from(_: NoMemory) -> Self {
        AppendFault::NoMemory
    }
}

/// Keeps a text behind the records, and answers where the next one goes. At each moment each image holds the records before,
/// or those and this one; after Ok each holds it. After a fault of the disk the file must be opened again.
pub fn append<D: LogDisk>(
    alloc: Global,
    disk: &mut D,
    end: End,
    text: &[u8],
) -> Result<End, AppendFault>
    requires some { 0 < length text.now }
    requires most { length text.now ≤ MOST_BYTES }
    requires shut { HasShutGate D.LogDisk end.at disk.old }
    ensures appends { Appends D.LogDisk end.at text.now disk.old disk.new result }
    ensures unchanged { IfErr result (λ fault. fault ≢ AppendFault.Disk → disk.new ≡ disk.old) }
    ensures full { IsErrOf result AppendFault.Full → MOST_PLACE ≤ end.at }
    ensures faults { CountsWhere (IsErrOf result AppendFault.Disk) (D.faults disk.old) (D.faults disk.new) }
{
    if end.at >= MOST_PLACE {
        return Err(AppendFault::Full);
    }
    let bytes = sealed_text(alloc, text)?;
    write_gated(disk, end.at, bytes.as_slice())?;
    Ok(End {
        at: end.at + 5 + text.len() as u64,
    })
}
