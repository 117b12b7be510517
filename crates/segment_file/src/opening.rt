//! All bytes of a disk, read after a sync.

ghost use Rattle.std.specs.Prelude.{◌≡◌, ◌≤◌, ◌<◌, ◌+◌, ◌++◌, ◌↔◌, [], length, take, IfOk, OnOk, IsErrOf};
ghost use Rattle.log_disk.specs.Calls.{Settles, Uses};
ghost use Rattle.log_disk.specs.Faults.{CountsWhere};
ghost use Rattle.log_disk.specs.Disk.{Keeps, Leaves};
ghost use Rattle.segment_file.specs.Changes.{OpensImage};
ghost use Rattle.segment_file.specs.MostReads.{most_reads};
ghost use Rattle.segment_file.specs.declared.opening.OpenFault.TheVariants.{DiskFault};

use log_disk::{BLOCK_BYTES, Failed, LogDisk};
use std::alloc::Global;

/// Why the bytes of a disk couldn't be had.
#[derive(Clone, Copy, Debug, PartialEq, Eq)]
pub enum OpenFault {
    DiskFault,
    NoMemory,
}

impl From<Failed> for OpenFault {
    ghost from_gives = { λ _ fault. fault ≡ DiskFault };

    fn from(_: Failed) -> Self {
        OpenFault::DiskFault
    }
}

/// All bytes of the disk, after a sync that makes them stable. Of a disk that ends before the length that it told, the
/// bytes up to there.
pub fn open_image<D: LogDisk>(alloc: Global, disk: &mut D) -> Result<Vec<u8>, OpenFault>
    ensures { OpensImage D.LogDisk disk.old disk.new result (λ bytes. bytes.items) }
{
    let len = synced_len(disk)?;
    read_up_to(alloc, disk, len)
}

/// Makes all bytes stable, and tells how many there are.
fn synced_len<D: LogDisk>(disk: &mut D) -> Result<u64, Failed>
    ensures len { D.honest disk.old → IfOk result (λ len. len ≡ length (D.reads disk.old)) }
    ensures settles { Settles D.LogDisk disk.old disk.new result }
    ensures uses { Uses D.LogDisk 1 2 disk.old disk.new result }
{
    disk.sync()?;
    disk.len()
}

/// No byte, with room for so many.
fn with_room(alloc: Global, len: u64) -> Result<Vec<u8>, OpenFault>
    ensures empty { IfOk result (λ bytes. bytes.items ≡ []) }
    ensures memory { IsErrOf result OpenFault.DiskFault → ⊥ }
{
    let Ok(room) = usize::try_from(len) else {
        return Err(OpenFault::NoMemory);
    };
    match Vec::with_capacity(alloc, room) {
        Ok(bytes) => Ok(bytes),
        Err(_) => Err(OpenFault::NoMemory),
    }
}

/// The bytes up to this length, or up to where a read gives none.
fn read_up_to<D: LogDisk>(alloc: Global, disk: &mut D, len: u64) -> Result<Vec<u8>, OpenFault>
    ensures bytes { D.honest disk.old → len ≡ length (D.reads disk.old) → IfOk result (λ bytes. bytes.items ≡ D.reads disk.old) }
    ensures keeps { Keeps D.honest D.reads D.images D.written_count disk.old disk.new }
    ensures moments { Leaves D.moment D.images_since (D.images disk.old) disk.old disk.new }
    ensures calls { D.honest disk.old → len ≡ length (D.reads disk.old)
        → D.calls disk.new ≤ D.calls disk.old + most_reads (length (D.reads disk.old)) }
    ensures honest { D.honest disk.old ↔ D.honest disk.new }
    ensures attached { D.attached disk.new ≡ D.attached disk.old }
    ensures faults { CountsWhere (IsErrOf result OpenFault.DiskFault) (D.faults disk.old) (D.faults disk.new) }
{
    // All room at once, before a read: no memory is had for the hole of a file that tells too great a length.
    let mut bytes = with_room(alloc, len)?;
    let mut buffer = [0; BLOCK_BYTES];
    'reading: while (bytes.len() as u64) < len {
        let count = match disk.read_at(bytes.len() as u64, &mut buffer) {
            Ok(count) => count,
            Err(_) => return Err(OpenFault::DiskFault),
        };
        if count == 0 {
            break;
        }
        add_front(&mut bytes, &buffer, count)?;
    }
    Ok(bytes)
}

/// Adds the first `count` bytes of the buffer.
fn add_front(bytes: &mut Vec<u8>, buffer: &[u8], count: usize) -> Result<(), OpenFault>
    requires { count ≤ length buffer.now }
    ensures items { OnOk result (bytes.new.items ≡ bytes.old.items ++ take count buffer.now) }
    ensures memory { IsErrOf result OpenFault.DiskFault → ⊥ }
{
    match bytes.extend_from_slice(buffer.split_at(count).0) {
        Ok(()) => Ok(()),
        Err(_) => Err(OpenFault::NoMemory),
    }
}
