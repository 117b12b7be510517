//! All that is read and asked for before anything of an upgraded log is written.

ghost use Rattle.std.specs.Prelude.{◌≡◌, ◌+◌, ◌++◌, [], List, length, IfSome, IfNone, IfOk, MatchResult, IsErrOf};
ghost use Rattle.log_disk.specs.Faults.{CountsWhere};
ghost use Rattle.lsn_space.specs.Opening.{IsSnapshot};
ghost use Rattle.log_record.specs.declared.rec.Rec.{Rec};
ghost use Rattle.log_record.specs.LogList.{AreUnitsOf};
ghost use Rattle.segment_file.specs.declared.layout.TheConstants.{MOST_UNITS};
ghost use Rattle.cli_shared.specs.Answers.{IsSourceFault};
ghost use Rattle.cli_shared.specs.declared.report.Detail.TheVariants.{Read};
ghost use Rattle.cli_cut.specs.Parts.{ArePartsOf, BeginsWithGenesis, BeginsWithNoGenesis, IsCutBehind, IsGenesisFront, SplitsGenesis};

use cli_shared::{Detail, source_detail};
use log_disk::Source;
use log_record::{Rec, read};
use log_recovery::{Listed, Recovered, judge_of_units};
use lsn_space::{Lsn, NoMemory, Opening};
use segment_file::{Batch, MOST_UNITS};
use segment_head::Head;
use source_recovery::recover_source_list;
use std::alloc::Global;

/// All that is asked for before anything of the new log is written.
#[derive(Drop)]
pub(crate) struct Parts {
    /// The accounts of the log that was read.
    pub recovered: Recovered,

    /// Its list.
    pub listed: Listed,

    /// How many units its Genesis records have.
    pub front: usize,

    /// What the new log begins with.
    pub head: Head,

    /// Room for a batch.
    pub batch: Batch,
}

/// Reads the log, and asks for all memory.
pub(crate) fn read_parts<S: Source>(alloc: Global, source: &mut S) -> Result<Parts, Detail>
    ensures told { MatchResult result (ArePartsOf (S.left source.old) (S.left source.new))
        (IsSourceFault (S.left source.old) (S.left source.new)) }
    ensures read { CountsWhere (IsErrOf result Read) (S.faults source.old) (S.faults source.new) }
{
    let (recovered, listed) = match recover_source_list(alloc, source) {
        Ok(both) => both,
        Err(fault) => return Err(source_detail(fault)),
    };
    let front = genesis_units(listed.units.as_slice());
    let Ok((head, batch)) = ask(alloc, &listed, front) else {
        return Err(Detail::NoMemory);
    };
    Ok(Parts {
        recovered,
        listed,
        front,
        head,
        batch,
    })
}

/// How many units the Genesis records have that the units of a list begin with.
fn genesis_units(units: &[u64]) -> usize
    requires { (records : List Rec) × AreUnitsOf units.now records }
    ensures { SplitsGenesis units.now result }
{
    let mut rest = units;
    'records: while let Some(size) = genesis_size(rest) {
        rest = rest.split_at(size).1;
    }
    units.len() - rest.len()
}

/// How many units the Genesis has that the units begin with, if they begin with one.
fn genesis_size(units: &[u64]) -> Option<usize>
    ensures some { IfSome result (BeginsWithGenesis units.now) }
    ensures none { IfNone result (BeginsWithNoGenesis units.now) }
{
    let Ok((rec, size)) = read(units) else {
        return None;
    };
    match rec {
        Rec::Genesis { .. } => Some(size),
        _ => None,
    }
}

/// The head of the new log: what the first so many units of the list leave. And room for a batch.
fn ask(alloc: Global, listed: &Listed, front: usize) -> Result<(Head, Batch), NoMemory>
    requires { IsGenesisFront listed.now front }
    ensures head { IfOk result (λ made. IsCutBehind listed.now front made.0) }
    ensures batch { IfOk result (λ made. (made.1.units ≡ []) × (made.1.room ≡ MOST_UNITS)) }
{
    let opening = opening_behind(alloc, listed, front)?;
    let head = Head::make(alloc, &opening)?;
    let batch = Batch::make(alloc, MOST_UNITS)?;
    Ok((head, batch))
}

/// What the first so many units of the list leave, which are those of its Genesis records.
fn opening_behind(alloc: Global, listed: &Listed, front: usize) -> Result<Opening, NoMemory>
    requires { IsGenesisFront listed.now front }
    ensures held { IfOk result IsSnapshot }
    ensures cut { IfOk result (IsCutBehind listed.now front) }
{
    let units = listed.units.as_slice().split_at(front).0;
    // A prefix of a lawful list is lawful, so that only memory may be wanting.
    let Ok(judge) = judge_of_units(alloc, &listed.opening, units) else {
        return Err(NoMemory);
    };
    Ok(Opening {
        lsn: Lsn::new(listed.opening.lsn.units() + front as u32),
        txn: judge.greatest_txn(),
        accounts: judge.into_accounts(),
    })
}
