//! The command `ship`: the stream of a log's records.
ghost use Rattle.cli_reports.specs.Reports.{AnswersReport, IsAnswerAtLsn, RefusesLsn};
ghost use Rattle.cli_standby.specs.Shipping.{SaysStream};
ghost use Rattle.cli_reports.specs.Command.{HasReported};

use cli_shared::{Detail, read_log};
use lock_core::Judge;
use log_disk::{Sink, Source};
use log_recovery::units_from;
use lsn_space::Lsn;
use ship_stream::put_stream;
use std::alloc::Global;

/// Answers the bytes of a log by the stream of its records from a boundary on.
pub fn ship_command<S: Source, K: Sink>(
    alloc: Global,
    from: Lsn,
    input: &mut S,
    out: &mut K,
) -> Detail
    ensures { HasReported S.Source K.Sink (AnswersReport (SaysStream from) (RefusesLsn from)) IsAnswerAtLsn
        input.old input.new out.old out.new result }
{
    let (_, listed) = match read_log::<Judge, S>(alloc, input) {
        Ok(both) => both,
        Err(detail) => return detail,
    };
    let Some(units) = units_from(&listed.opening, listed.units.as_slice(), from) else {
        return Detail::NoSuchLsn { lsn: from };
    };
    match put_stream(from, units, out) {
        Ok(()) => Detail::Fine,
        Err(_) => Detail::Write,
    }
}
