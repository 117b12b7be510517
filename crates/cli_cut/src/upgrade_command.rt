//! The command `upgrade`: a log of the second format, with all records of another log.
ghost use Rattle.cli_shared.specs.World.{TellsFaults, world};
ghost use Rattle.cli_cut.specs.Command.{DoesUpgrade};
ghost use Rattle.cli_cut.specs.Trying.{TriesUpgrade};

use crate::reading::read_parts;
use crate::writing::write_log;
use cli_shared::{Detail, finds_none};
use log_disk::{LogDisk, Sink, Source};
use log_recovery::{Recovered, put_accounts};
use lsn_space::Word;
use std::alloc::Global;

/// Makes a log of the second format of the log that is read, and answers the text of its accounts.
pub fn upgrade_command<D: LogDisk, S: Source, K: Sink>(
    alloc: Global,
    log: &Word,
    disk: &mut D,
    source: &mut S,
    out: &mut K,
) -> Detail
    ensures done { DoesUpgrade D.LogDisk S.Source K.Sink log.now
        (world disk.old source.old out.old) (world disk.new source.new out.new) result }
    ensures faults { TellsFaults D.LogDisk S.Source K.Sink
        (world disk.old source.old out.old) (world disk.new source.new out.new) result }
{
    let recovered = match make_upgrade(alloc, log, disk, source) {
        Ok(recovered) => recovered,
        Err(detail) => return detail,
    };
    match put_accounts(recovered.lsn, &recovered.accounts, out) {
        Ok(()) => Detail::Fine,
        Err(_) => Detail::Write,
    }
}

/// Makes the log, and answers what the log that was read says. Nothing is written to the disk before all of that is there.
fn make_upgrade<D: LogDisk, S: Source>(
    alloc: Global,
    log: &Word,
    disk: &mut D,
    source: &mut S,
) -> Result<Recovered, Detail>
    ensures { TriesUpgrade D.LogDisk S.Source log.now
        disk.old disk.new source.old source.new result }
{
    finds_none(disk, log)?;
    let mut parts = read_parts(alloc, source)?;
    let rest = parts.listed.units.as_slice().split_at(parts.front).1;
    match write_log(disk, &parts.head, rest, &mut parts.batch) {
        Ok(()) => Ok(parts.recovered),
        Err(_) => Err(Detail::Disk),
    }
}
