//! The command `dump`.

ghost use Rattle.cli_reports.specs.Answers.{AnswersDump, IsAnswerToDump};
ghost use Rattle.cli_reports.specs.Command.{HasReported};

use cli_shared::{Detail, detail_of};
use log_disk::{Sink, Source};
use log_recovery::put_dump;
use source_recovery::{SourceFault, list_source};
use std::alloc::Global;

/// Answers the bytes of a log by its records, lawful or not.
pub fn dump_command<S: Source, K: Sink>(alloc: Global, input: &mut S, out: &mut K) -> Detail
    ensures { HasReported S.Source K.Sink AnswersDump IsAnswerToDump
        input.old input.new out.old out.new result }
{
    let list = match list_source(alloc, input) {
        Ok(list) => list,
        Err(SourceFault::Failed) => return Detail::Read,
        Err(SourceFault::Log(fault)) => return detail_of(fault),
    };
    match put_dump(&list, out) {
        Ok(()) => Detail::Fine,
        Err(_) => Detail::Write,
    }
}
