//! The command `recover`.

ghost use Rattle.cli_reports.specs.Answers.{AnswersRecover, IsAnswerToRecover};
ghost use Rattle.cli_reports.specs.Command.{HasReported};

use cli_shared::{Detail, detail_of};
use log_disk::{Sink, Source};
use log_recovery::put_accounts;
use source_recovery::{SourceFault, recover_source};
use std::alloc::Global;

/// Answers the bytes of a log by its accounts text.
pub fn recover_command<S: Source, K: Sink>(alloc: Global, input: &mut S, out: &mut K) -> Detail
    ensures { HasReported S.Source K.Sink AnswersRecover IsAnswerToRecover
        input.old input.new out.old out.new result }
{
    let recovered = match recover_source(alloc, input) {
        Ok(recovered) => recovered,
        Err(SourceFault::Failed) => return Detail::Read,
        Err(SourceFault::Log(fault)) => return detail_of(fault),
    };
    match put_accounts(recovered.lsn, &recovered.accounts, out) {
        Ok(()) => Detail::Fine,
        Err(_) => Detail::Write,
    }
}
