//! How a log is opened.

ghost use Rattle.std.specs.Prelude.{IfOk, IfErr, IsErrOf};
ghost use Rattle.log_disk.specs.Attachment.{existing};
ghost use Rattle.log_disk.specs.Faults.{CountsWhere};
ghost use Rattle.cli_shared.specs.Attached.{EndsAttached};
ghost use Rattle.cli_shared.specs.Looking.{Looks};
ghost use Rattle.cli_shared.specs.Opening.{Opens, HasOpeningFault, ReadsImage, most_calls};

use crate::report::{Detail, detail_of};
use log_disk::LogDisk;
use log_recovery::{Recovered, recover_owned};
use lsn_space::Word;
use segment_file::{OpenFault, open_image};
use std::alloc::Global;

/// Opens the log of that name, which has to be there, and answers what it says. At the return a crash leaves what was read.
pub fn open_log<D: LogDisk>(alloc: Global, log: &Word, disk: &mut D) -> Result<Recovered, Detail>
    ensures opened { IfOk result (λ opened. Opens D.LogDisk opened disk.old disk.new) }
    ensures fault { IfErr result (HasOpeningFault D.LogDisk disk.old) }
    ensures looks { Looks D.LogDisk (most_calls D.LogDisk disk.old) disk.old disk.new }
    ensures attached { D.honest disk.old → EndsAttached (existing log.now) (D.attached disk.old) (D.attached disk.new) result }
    ensures disk { CountsWhere (IsErrOf result Detail.Disk) (D.faults disk.old) (D.faults disk.new) }
{
    let bytes = match image_of(alloc, log, disk) {
        Ok(bytes) => bytes,
        Err(OpenFault::DiskFault) => return Err(Detail::Disk),
        Err(OpenFault::NoMemory) => return Err(Detail::NoMemory),
    };
    match recover_owned(alloc, bytes) {
        Ok(opened) => Ok(opened),
        Err(fault) => Err(detail_of(fault)),
    }
}

/// All bytes of the file of that name, which has to be there, after a sync that makes them stable.
pub fn image_of<D: LogDisk>(alloc: Global, log: &Word, disk: &mut D) -> Result<Vec<u8>, OpenFault>
    ensures { ReadsImage D.LogDisk log.now disk.old disk.new result (λ bytes. bytes.items) }
{
    disk.attach(log, false)?;
    open_image(alloc, disk)
}
