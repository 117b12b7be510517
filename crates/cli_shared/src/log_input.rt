//! How a log is read from the input, for one that takes its records.

ghost use Rattle.std.specs.Prelude.{IfOk, IfErr, IsErrOf};
ghost use Rattle.log_disk.specs.Faults.{CountsWhere};
ghost use Rattle.cli_shared.specs.Answers.{IsSourceFault};
ghost use Rattle.source_recovery.specs.Recovery.{TakesSource};
ghost use Rattle.cli_shared.specs.LogInput.{ReadsTaken, TellsSource};

use crate::report::{Detail, detail_of};
use lock_core::TakesRecords;
use log_disk::Source;
use log_recovery::Listed;
use segment_file::Tail;
use source_recovery::{SourceFault, TakesAsked, take_pieces, take_source};
use std::alloc::Global;

/// Reads the input to its end, and answers what has taken the list of the log that it is, and the list.
pub fn read_log<T: TakesRecords, S: Source>(
    alloc: Global,
    source: &mut S,
) -> Result<(T, Listed), Detail>
    ensures ok { IfOk result (λ both. ReadsTaken T.has_taken (S.left source.old) (S.left source.new) both.0 both.1) }
    ensures err { IfErr result (IsSourceFault (S.left source.old) (S.left source.new)) }
    ensures read { CountsWhere (IsErrOf result Detail.Read) (S.faults source.old) (S.faults source.new) }
{
    match take_source(alloc, source) {
        Ok(both) => Ok(both),
        Err(fault) => Err(source_detail(fault)),
    }
}

/// The same for one that is asked for this and needs no list: it answers where the file goes on, and of the input no more is kept than
/// what the taker keeps, and a batch.
pub fn read_pieces<T: TakesAsked, S: Source>(
    alloc: Global,
    asked: u32,
    source: &mut S,
) -> Result<(T, Tail), Detail>
    ensures ok { IfOk result (λ both. TakesSource (T.has_taken asked) (S.left source.old) (S.left source.new) both.0 both.1) }
    ensures err { IfErr result (IsSourceFault (S.left source.old) (S.left source.new)) }
    ensures read { CountsWhere (IsErrOf result Detail.Read) (S.faults source.old) (S.faults source.new) }
{
    match take_pieces(alloc, asked, source) {
        Ok(both) => Ok(both),
        Err(fault) => Err(source_detail(fault)),
    }
}

/// How the program ends where a source gives no log.
pub fn source_detail(fault: SourceFault) -> Detail
    ensures { TellsSource fault result }
{
    match fault {
        SourceFault::Failed => Detail::Read,
        SourceFault::Log(fault) => detail_of(fault),
    }
}
