//! How the script of a run is read from the input.

ghost use Rattle.std.specs.Prelude.{◌≤◌, ◌+◌, length, IfOk, IfErr, IsErrOf};
ghost use Rattle.log_disk.specs.Faults.{CountsWhere};
ghost use Rattle.log_record.specs.declared.limits.TheConstants.{LAST_TXN};
ghost use Rattle.cli_shared.specs.Scripts.{IsWholeScript, HasNoScript, HasNoTransfers};

use crate::input::read_input;
use crate::report::Detail;
use log_disk::Source;
use log_record::LAST_TXN;
use log_recovery::Recovered;
use std::alloc::Global;
use txn_script::{ParseFault, Script, parse};

/// The transfers, for a log of so many accounts, that the input is the script of.
pub fn read_script<S: Source>(
    alloc: Global,
    accounts: u32,
    script: &mut S,
) -> Result<Script, Detail>
    ensures ok { IfOk result (IsWholeScript accounts (S.left script.old) (S.left script.new)) }
    ensures err { IfErr result (HasNoScript accounts (S.left script.old) (S.left script.new)) }
    ensures read { CountsWhere (IsErrOf result Detail.Read) (S.faults script.old) (S.faults script.new) }
{
    let bytes = read_input(alloc, script)?;
    match parse(alloc, bytes.as_slice(), accounts) {
        Ok(script) => Ok(script),
        Err(ParseFault::Line { line }) => Err(Detail::Script { line }),
        Err(ParseFault::NoMemory) => Err(Detail::NoMemory),
    }
}

/// The transfers that the input asks for of an opened log. All of them have numbers, from the first on that the log leaves, and one is left
/// for what comes after.
pub fn read_transfers<S: Source>(
    alloc: Global,
    opened: &Recovered,
    script: &mut S,
) -> Result<Script, Detail>
    ensures ok { IfOk result (IsWholeScript (length opened.now.accounts.rows) (S.left script.old) (S.left script.new)) }
    ensures fit { IfOk result (λ transfers. opened.now.next_txn + length transfers ≤ LAST_TXN) }
    ensures err { IfErr result
        (HasNoTransfers (length opened.now.accounts.rows) opened.now.next_txn (S.left script.old) (S.left script.new)) }
    ensures read { CountsWhere (IsErrOf result Detail.Read) (S.faults script.old) (S.faults script.new) }
{
    let transfers = read_script(alloc, opened.accounts.count(), script)?;
    let first = opened.next_txn;
    let count = transfers.count();
    match first.checked_add(count) {
        Some(end) if end <= LAST_TXN as u64 => Ok(transfers),
        _ => Err(Detail::TxnEnd { first, count }),
    }
}
