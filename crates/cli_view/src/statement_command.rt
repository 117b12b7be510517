//! The command `statement`: what came into and went out of one account.
ghost use Rattle.cli_reports.specs.Reports.{IsAnswerOnAccount};
ghost use Rattle.cli_view.specs.Reports.{AnswersStatement};
ghost use Rattle.cli_reports.specs.Command.{HasReported};

use crate::one_account::OneAccount;
use crate::statement_text::put_statement;
use cli_shared::{Detail, read_pieces};
use log_disk::{Sink, Source};
use std::alloc::Global;

/// Answers the bytes of a log by the statement of an account of its list.
pub fn statement_command<S: Source, K: Sink>(
    alloc: Global,
    account: u32,
    input: &mut S,
    out: &mut K,
) -> Detail
    ensures { HasReported S.Source K.Sink (AnswersStatement account) IsAnswerOnAccount
        input.old input.new out.old out.new result }
{
    let (taken, tail) = match read_pieces::<OneAccount, S>(alloc, account, input) {
        Ok(both) => both,
        Err(detail) => return detail,
    };
    let Some(balance) = taken.0.first_balance() else {
        return Detail::NoAccount { account };
    };
    match put_statement(balance, taken.0.entries(), tail.next, out) {
        Ok(()) => Detail::Fine,
        Err(_) => Detail::Write,
    }
}
