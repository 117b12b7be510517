//! A file of records that is opened, and all of its records.

ghost use Rattle.std.specs.Prelude.{◌≡◌, ◌≢◌, ◌↔◌, List, ℕ, IfOk, IfErr, IsErrOf};
ghost use Rattle.log_disk.specs.Disk.{Leaves};
ghost use Rattle.log_disk.specs.Faults.{CountsWhere, HasCause};
ghost use Rattle.segment_file.specs.Calls.{HasStableGate, LiesWithin};
ghost use Rattle.own_records.specs.Kept.{AllHold, HasEnd, IsUnwritten, Opens};
ghost use Rattle.own_records.specs.Opening.{IsOpenFaultOf, open_fault, read_fault};

use crate::appending::End;
use crate::creating::create;
use crate::reading::{RecordsFault, is_fresh, records_in, scan_records};
use crate::record::Record;
use log_disk::LogDisk;
use segment_file::{DiskFault, close_gate, open_image};
use std::alloc::Global;

/// Why the records couldn't be had.
#[derive(Clone, Copy, Debug, PartialEq, Eq)]
pub enum OpenFault {
    /// The disk failed. The file must be opened again.
    Disk,

    NotRecords,
    BadRecord,
    NoMemory,
}

impl From<DiskFault> for OpenFault {
    ghost use Rattle.std.specs.Prelude.{◌≡◌};
    ghost use Rattle.own_records.specs.declared.opening.OpenFault.TheVariants as fault;

    ghost from_gives = { λ _ f. f ≡ fault.Disk };

    fn from(_: DiskFault) -> Self {
        OpenFault::Disk
    }
}

impl From<RecordsFault> for OpenFault {
    ghost use Rattle.std.specs.Prelude.{◌≡◌};
    ghost use Rattle.own_records.specs.Opening.{open_fault};

    ghost from_gives = { λ records f. f ≡ open_fault records };

    fn from(fault: RecordsFault) -> Self {
        match fault {
            RecordsFault::NotRecords => OpenFault::NotRecords,
            RecordsFault::BadRecord => OpenFault::BadRecord,
            RecordsFault::NoMemory => OpenFault::NoMemory,
        }
    }
}

impl From<segment_file::OpenFault> for OpenFault {
    ghost use Rattle.std.specs.Prelude.{◌≡◌};
    ghost use Rattle.own_records.specs.Opening.{read_fault};

    ghost from_gives = { λ read f. f ≡ read_fault read };

    fn from(fault: segment_file::OpenFault) -> Self {
        match fault {
            segment_file::OpenFault::DiskFault => OpenFault::Disk,
            segment_file::OpenFault::NoMemory => OpenFault::NoMemory,
        }
    }
}

/// Opens the file of records on the disk, or makes it of a fresh one, and answers where the next record goes. At each moment
/// each image holds the records before. What isn't such a file stays as it is.
pub fn open<D: LogDisk>(alloc: Global, disk: &mut D) -> Result<End, OpenFault>
    ensures opens { Opens D.LogDisk disk.old disk.new result }
    ensures fault { D.honest disk.old → IfErr result (IsOpenFaultOf (D.reads disk.old)) }
    ensures refused { D.honest disk.old → IfErr result (λ fault. fault ≢ OpenFault.Disk → IsUnwritten D.LogDisk disk.old disk.new) }
    ensures faults { CountsWhere (IsErrOf result OpenFault.Disk) (D.faults disk.old) (D.faults disk.new) }
{
    let bytes = open_image(alloc, disk)?;
    if is_fresh(bytes.as_slice()) {
        return Ok(create(disk, bytes.len())?);
    }
    let found = scan_records(alloc, bytes.as_slice())?;
    Ok(go_on(disk, found.at)?)
}

/// Makes sure that the gate at the end of the records stays closed whatever is written behind it.
fn go_on<D: LogDisk>(disk: &mut D, at: u64) -> Result<End, DiskFault>
    requires within { LiesWithin D.LogDisk at disk.old }
    requires stable { HasStableGate D.LogDisk at disk.old }
    requires end { HasEnd D.LogDisk at disk.old }
    ensures opens { Opens D.LogDisk disk.old disk.new result }
    ensures cause { HasCause (D.faults disk.old) (D.faults disk.new) result }
{
    close_gate(disk, at)?;
    Ok(End { at })
}

/// All records of the file on the disk. It adds no image.
pub fn read_all<D: LogDisk>(alloc: Global, disk: &mut D) -> Result<Vec<Record>, OpenFault>
    ensures all { D.honest disk.old → (texts : List (List ℕ)) → AllHold texts (D.images disk.old) → IfOk result (λ records. records.items ≡ texts) }
    ensures held { D.honest disk.old → IfOk result (λ records. AllHold records.items (D.images disk.new)) }
    ensures fault { D.honest disk.old → IfErr result (IsOpenFaultOf (D.reads disk.old)) }
    ensures images { (c : List ℕ) → D.images disk.new c → D.images disk.old c }
    ensures moments { Leaves D.moment D.images_since (D.images disk.old) disk.old disk.new }
    ensures honest { D.honest disk.old ↔ D.honest disk.new }
    ensures faults { CountsWhere (IsErrOf result OpenFault.Disk) (D.faults disk.old) (D.faults disk.new) }
{
    let bytes = open_image(alloc, disk)?;
    Ok(records_in(alloc, bytes.as_slice())?)
}
