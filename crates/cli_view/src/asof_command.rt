//! The command `asof`: the accounts as they stood at a boundary.
ghost use Rattle.cli_reports.specs.Reports.{IsAnswerAtLsn};
ghost use Rattle.cli_view.specs.Reports.{AnswersAsOf};
ghost use Rattle.cli_reports.specs.Command.{HasReported};

use crate::accounts_at::AccountsAt;
use cli_shared::{Detail, read_pieces};
use log_disk::{Sink, Source};
use log_recovery::put_accounts;
use lsn_space::{Lsn, NoMemory};
use std::alloc::Global;

/// Answers the bytes of a log by the accounts text of its list up to a boundary.
pub fn asof_command<S: Source, K: Sink>(
    alloc: Global,
    lsn: Lsn,
    input: &mut S,
    out: &mut K,
) -> Detail
    ensures { HasReported S.Source K.Sink (AnswersAsOf lsn) IsAnswerAtLsn
        input.old input.new out.old out.new result }
{
    let (taken, tail) = match read_pieces::<AccountsAt, S>(alloc, lsn.units(), input) {
        Ok(both) => both,
        Err(detail) => return detail,
    };
    let found = match taken.answer(tail.next) {
        Ok(found) => found,
        Err(NoMemory) => return Detail::NoMemory,
    };
    let Some(accounts) = found else {
        return Detail::NoSuchLsn { lsn };
    };
    match put_accounts(lsn, &accounts, out) {
        Ok(()) => Detail::Fine,
        Err(_) => Detail::Write,
    }
}
