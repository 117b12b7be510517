//! The command `new`: a log of balances.
ghost use Rattle.std.specs.Prelude.{◌≡◌, ◌↔◌, IfOk, IfErr, OnOk, MatchResult, IsErrOf};
ghost use Rattle.log_disk.specs.Attachment.{existing_or_made};
ghost use Rattle.log_disk.specs.Costs.{Costs};
ghost use Rattle.log_disk.specs.Disk.{Leaves};
ghost use Rattle.log_disk.specs.Faults.{CountsWhere};
ghost use Rattle.segment_file.specs.File.{BeginsOpen};
ghost use Rattle.cli_new.specs.Answers.{AreOpening, IsMakingFault, ReadsOpening};
ghost use Rattle.cli_shared.specs.Attached.{EndsAttached};
ghost use Rattle.cli_new.specs.Creation.{AllHoldNew, GrowsByNew, MayBeLeft, PrecedesLog};
ghost use Rattle.cli_shared.specs.Creation.{TellsWhether};
ghost use Rattle.cli_shared.specs.World.{TellsFaults, world};
ghost use Rattle.cli_new.specs.Command.{DoesNew};

use cli_shared::genesis::genesis;
use cli_shared::{Detail, finds_none, read_all};
use log_disk::{LogDisk, ReadFault, Sink, Source};
use log_recovery::put_accounts;
use lsn_space::{Balances, Lsn, Word};
use segment_file::create;
use std::alloc::Global;
use txn_script::{ParseFault, balances};

/// Makes a log of the balances that are read, and answers its accounts text.
pub fn new_command<D: LogDisk, S: Source, K: Sink>(
    alloc: Global,
    log: &Word,
    disk: &mut D,
    script: &mut S,
    out: &mut K,
) -> Detail
    ensures done { DoesNew D.LogDisk S.Source K.Sink log.now
        (world disk.old script.old out.old) (world disk.new script.new out.new) result }
    ensures faults { TellsFaults D.LogDisk S.Source K.Sink (world disk.old script.old out.old) (world disk.new script.new out.new) result }
{
    let accounts = match make_log(alloc, log, disk, script) {
        Ok(accounts) => accounts,
        Err(detail) => return detail,
    };
    match put_accounts(Lsn::new(2 * accounts.count()), &accounts, out) {
        Ok(()) => Detail::Fine,
        Err(_) => Detail::Write,
    }
}

/// Makes the log, and answers its accounts. Nothing is written to the disk before all of it is known.
fn make_log<D: LogDisk, S: Source>(
    alloc: Global,
    log: &Word,
    disk: &mut D,
    script: &mut S,
) -> Result<Balances, Detail>
    ensures ok { IfOk result (AreOpening (S.left script.old) (S.left script.new)) }
    ensures err { IfErr result (IsMakingFault (S.left script.old) (S.left script.new)) }
    ensures images { D.honest disk.old
        → Leaves D.moment D.images_since (MayBeLeft (S.left script.old) (D.images disk.old)) disk.old disk.new }
    ensures made { D.honest disk.old → OnOk result (AllHoldNew (S.left script.old) (D.images disk.new)) }
    ensures kept { IfErr result (λ detail. PrecedesLog detail
        → Leaves D.moment D.images_since (D.images disk.old) disk.old disk.new) }
    ensures unchanged { D.honest disk.old → IfErr result (λ detail. PrecedesLog detail → D.reads disk.new ≡ D.reads disk.old) }
    ensures exists { D.honest disk.old
        → MatchResult result (λ _. BeginsOpen (D.reads disk.old) → ⊥) (TellsWhether (BeginsOpen (D.reads disk.old))) }
    ensures count { D.honest disk.old → Costs D.LogDisk 7 11 disk.old disk.new }
    ensures grows { D.honest disk.old → GrowsByNew D.LogDisk (S.left script.old) disk.old disk.new }
    ensures honest { D.honest disk.old ↔ D.honest disk.new }
    ensures attached { D.honest disk.old
        → EndsAttached (existing_or_made log.now) (D.attached disk.old) (D.attached disk.new) result }
    ensures read { CountsWhere (IsErrOf result Detail.Read) (S.faults script.old) (S.faults script.new) }
    ensures disk { CountsWhere (IsErrOf result Detail.Disk) (D.faults disk.old) (D.faults disk.new) }
{
    finds_none(disk, log)?;
    let accounts = read_balances(alloc, script)?;
    let Ok(mut batch) = genesis(alloc, &accounts) else {
        return Err(Detail::NoMemory);
    };
    match create(disk, &mut batch) {
        Ok(_) => Ok(accounts),
        Err(_) => Err(Detail::Disk),
    }
}

/// The balances that the input is the text of.
fn read_balances<S: Source>(alloc: Global, script: &mut S) -> Result<Balances, Detail>
    ensures answer { ReadsOpening (S.left script.old) (S.left script.new) result }
    ensures read { CountsWhere (IsErrOf result Detail.Read) (S.faults script.old) (S.faults script.new) }
{
    let bytes = match read_all(alloc, script) {
        Ok(bytes) => bytes,
        Err(ReadFault::Failed) => return Err(Detail::Read),
        Err(ReadFault::NoMemory) => return Err(Detail::NoMemory),
    };
    match balances(alloc, bytes.as_slice()) {
        Ok(accounts) => Ok(accounts),
        Err(ParseFault::Line { line }) => Err(Detail::Script { line }),
        Err(ParseFault::NoMemory) => Err(Detail::NoMemory),
    }
}
