//! How it is found whether a log is on a disk.

ghost use Rattle.std.specs.Prelude.{◌≡◌, ◌↔◌, IfOk, OnOk, IsTrue, MatchResult, Some};
ghost use Rattle.log_disk.specs.Attachment.{MayAttach, existing_or_made};
ghost use Rattle.log_disk.specs.Faults.{HasCause};
ghost use Rattle.log_disk.specs.Disk.{IsOnlyImage};
ghost use Rattle.segment_file.specs.File.{BeginsOpen};
ghost use Rattle.cli_shared.specs.Finding.{FindsNone, most_finding};
ghost use Rattle.cli_shared.specs.Looking.{Looks};

use crate::report::Detail;
use log_disk::LogDisk;
use lsn_space::Word;
use segment_file::{DiskFault, has_open_gate};

/// Opens the file of that name, which is made where it is missing, and tells whether a log may be there. What it
/// reads is then all that a crash leaves.
fn finds_log<D: LogDisk>(disk: &mut D, log: &Word) -> Result<bool, DiskFault>
    ensures opens { D.honest disk.old → IfOk result (λ yes. IsTrue yes ↔ BeginsOpen (D.reads disk.old)) }
    ensures settled { D.honest disk.old → OnOk result (IsOnlyImage (D.reads disk.new) (D.images disk.new)) }
    ensures looks { Looks D.LogDisk most_finding disk.old disk.new }
    ensures attached { D.honest disk.old → MatchResult result (λ _. D.attached disk.new ≡ Some (existing_or_made log.now))
        (λ _. MayAttach (existing_or_made log.now) (D.attached disk.old) (D.attached disk.new)) }
    ensures cause { HasCause (D.faults disk.old) (D.faults disk.new) result }
{
    disk.attach(log, true)?;
    disk.sync()?;
    has_open_gate(disk)
}

/// Opens the file of that name, which is made where it is missing, and finds that no log is there. At the return the first gate
/// is the same whatever a crash leaves.
pub fn finds_none<D: LogDisk>(disk: &mut D, log: &Word) -> Result<(), Detail>
    ensures { FindsNone D.LogDisk log.now disk.old disk.new result }
{
    match finds_log(disk, log) {
        Ok(false) => Ok(()),
        Ok(true) => Err(Detail::Exists),
        Err(_) => Err(Detail::Disk),
    }
}
