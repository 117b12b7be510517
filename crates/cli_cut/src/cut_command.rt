//! The command `cut`: a log that begins with the accounts that another log leaves.
ghost use Rattle.std.specs.Prelude.{IfOk, MatchResult, IsErrOf};
ghost use Rattle.log_disk.specs.Faults.{CountsWhere};
ghost use Rattle.lsn_space.specs.Opening.{IsSnapshot};
ghost use Rattle.cli_shared.specs.Answers.{IsSourceFault};
ghost use Rattle.cli_shared.specs.World.{TellsFaults, world};
ghost use Rattle.cli_shared.specs.declared.report.Detail.TheVariants.{Read};
ghost use Rattle.cli_cut.specs.Command.{DoesCut};
ghost use Rattle.cli_cut.specs.Cutting.{ReadsCut};
ghost use Rattle.cli_cut.specs.Trying.{TriesCut};

use cli_shared::{Detail, finds_none, source_detail};
use log_disk::{LogDisk, Sink, Source};
use log_recovery::put_accounts;
use lsn_space::{Opening, Word};
use segment_cut::create_cut;
use segment_head::Head;
use source_recovery::recover_source;
use std::alloc::Global;

/// Makes a log of what the log that is read leaves of its accounts, and answers their text. What has no end record there is
/// dropped.
pub fn cut_command<D: LogDisk, S: Source, K: Sink>(
    alloc: Global,
    log: &Word,
    disk: &mut D,
    source: &mut S,
    out: &mut K,
) -> Detail
    ensures done { DoesCut D.LogDisk S.Source K.Sink log.now
        (world disk.old source.old out.old) (world disk.new source.new out.new) result }
    ensures faults { TellsFaults D.LogDisk S.Source K.Sink
        (world disk.old source.old out.old) (world disk.new source.new out.new) result }
{
    let opening = match make_cut(alloc, log, disk, source) {
        Ok(opening) => opening,
        Err(detail) => return detail,
    };
    match put_accounts(opening.lsn, &opening.accounts, out) {
        Ok(()) => Detail::Fine,
        Err(_) => Detail::Write,
    }
}

/// Makes the log, and answers what it begins with. Nothing is written to the disk before all of that is known.
fn make_cut<D: LogDisk, S: Source>(
    alloc: Global,
    log: &Word,
    disk: &mut D,
    source: &mut S,
) -> Result<Opening, Detail>
    ensures { TriesCut D.LogDisk S.Source log.now
        disk.old disk.new source.old source.new result }
{
    finds_none(disk, log)?;
    let opening = read_opening(alloc, source)?;
    let Ok(mut head) = Head::make(alloc, &opening) else {
        return Err(Detail::NoMemory);
    };
    match create_cut(disk, &mut head) {
        Ok(_) => Ok(opening),
        Err(_) => Err(Detail::Disk),
    }
}

/// What the log that is read leaves before the next list.
fn read_opening<S: Source>(alloc: Global, source: &mut S) -> Result<Opening, Detail>
    ensures told { MatchResult result (ReadsCut (S.left source.old) (S.left source.new))
        (IsSourceFault (S.left source.old) (S.left source.new)) }
    ensures held { IfOk result IsSnapshot }
    ensures read { CountsWhere (IsErrOf result Read) (S.faults source.old) (S.faults source.new) }
{
    match recover_source(alloc, source) {
        Ok(recovered) => Ok(Opening {
            lsn: recovered.lsn,
            txn: (recovered.next_txn - 1) as u32,
            accounts: recovered.accounts,
        }),
        Err(fault) => Err(source_detail(fault)),
    }
}
