//! How a log is opened that is to follow a stream.

ghost use Rattle.std.specs.Prelude.{◌↔◌, List, ℕ, Option, IfOk, IfErr, IsErrOf};
ghost use Rattle.log_disk.specs.Attachment.{existing};
ghost use Rattle.log_disk.specs.Faults.{CountsWhere};
ghost use Rattle.cli_shared.specs.Attached.{EndsAttached};
ghost use Rattle.cli_standby.specs.Feeding.{AnswersUnsaid, IsOpened, IsUnopened};

use cli_shared::{Detail, detail_of, image_of};
use lock_core::Judge;
use log_disk::LogDisk;
use log_recovery::judged;
use lsn_space::Word;
use segment_file::{OpenFault, Tail, settle};
use std::alloc::Global;

/// Opens the log of that name, which has to be there, and makes sure that a crash leaves its list whatever is written behind it. What was
/// read of it is dropped.
pub(crate) fn open_standby<D: LogDisk>(
    alloc: Global,
    log: &Word,
    disk: &mut D,
) -> Result<(Tail, Judge), Detail>
    ensures opened { IfOk result (λ both. IsOpened D.LogDisk disk.old disk.new both.0 both.1) }
    ensures none { D.honest disk.old → IfErr result (λ detail. (left left_new : Option (List ℕ))
        → AnswersUnsaid D.LogDisk disk.old disk.new left left_new detail) }
    ensures range { IfErr result IsUnopened }
    ensures honest { D.honest disk.old ↔ D.honest disk.new }
    ensures attached { D.honest disk.old → EndsAttached (existing log.now) (D.attached disk.old) (D.attached disk.new) result }
    ensures disk { CountsWhere (IsErrOf result Detail.Disk) (D.faults disk.old) (D.faults disk.new) }
{
    let bytes = match image_of(alloc, log, disk) {
        Ok(bytes) => bytes,
        Err(OpenFault::DiskFault) => return Err(Detail::Disk),
        Err(OpenFault::NoMemory) => return Err(Detail::NoMemory),
    };
    let (judge, tail) = match judged(alloc, bytes.as_slice()) {
        Ok(both) => both,
        Err(fault) => return Err(detail_of(fault)),
    };
    drop(bytes);
    match settle(disk, tail.at, tail.next) {
        Ok(tail) => Ok((tail, judge)),
        Err(_) => Err(Detail::Disk),
    }
}
