//! The plain program, over the whole list.

ghost use Rattle.std.specs.Prelude.{◌∷◌, reverse, IfOk, IfErr, OnOk};
ghost use Rattle.std.specs.List.{AllByRecursion};
ghost use Rattle.log_record.specs.Spelling.{IsSpellable};
ghost use Rattle.lock_core.specs.Sums.{no_opening, ShowsAccounts};
ghost use Rattle.lock_core.specs.Lawful.{Passes, IsLawful, base_with};
ghost use Rattle.lock_core.specs.Faults.{IsFirstFailing};
ghost use Rattle.lock_core.specs.Judging.{IsJudged, IsPlainFaultOf};

use super::kinds::{admit_commit, admit_genesis, admit_note, admit_refusal, admit_update};
use crate::reason::Why;
use crate::update::Change;
use log_record::{Placed, Rec};
use lsn_space::{Balances, Lsn, MOST_ACCOUNTS};
use std::alloc::Global;

/// Why there are no accounts.
#[derive(Clone, Copy, Debug, PartialEq, Eq)]
pub enum PlainFault {
    /// The record that starts at this LSN is the first that fails a test, and this is the first test that it fails.
    Unlawful { lsn: Lsn, why: Why },

    NoMemory,
}

/// Tests one entry more, and keeps the accounts; at an error they are of no use.
fn admit(accounts: &mut Balances, front: &[Placed], entry: &Placed) -> Result<(), Why>
    requires judged { IsJudged no_opening accounts.old (reverse front.now) }
    requires spellable { IsSpellable entry.now.rec }
    ensures ok { OnOk result (IsJudged no_opening accounts.new (entry.now ∷ reverse front.now)) }
    ensures why { IfErr result (IsFirstFailing (Passes no_opening (reverse front.now) entry.now)) }
{
    match &entry.rec {
        Rec::Genesis { account, balance } => admit_genesis(accounts, front, *account, *balance),
        Rec::Update {
            txn,
            account,
            delta,
            prev,
        } => {
            let change = Change {
                account: *account,
                delta: *delta,
                prev: *prev,
            };
            admit_update(accounts, front, *txn, change)
        }
        Rec::Commit { txn, legs } => admit_commit(accounts, front, *txn, *legs, entry.end),
        Rec::Short { txn, leg } => admit_refusal(front, *txn, *leg),
        Rec::Over { txn, leg } => admit_refusal(front, *txn, *leg),
        Rec::Note { txn, text } => admit_note(front, *txn, text),
    }
}

/// The accounts of a lawful whole log, given as its entries in the order of the file: the definition's plain program. It takes
/// time in proportion to the square of their number, and memory for the accounts alone.
pub fn plain_accounts(alloc: Global, entries: &[Placed]) -> Result<Balances, PlainFault>
    requires { AllByRecursion (λ entry. IsSpellable entry.rec) entries.now }
    ensures lawful { OnOk result (IsLawful no_opening (reverse entries.now)) }
    ensures accounts { IfOk result (λ accounts. ShowsAccounts accounts.rows
        (base_with no_opening (reverse entries.now)) (reverse entries.now)) }
    ensures fault { IfErr result (IsPlainFaultOf (reverse entries.now)) }
{
    let Ok(mut accounts) = Balances::make(alloc, MOST_ACCOUNTS) else {
        return Err(PlainFault::NoMemory);
    };
    let mut start = Lsn::new(0);
    'entries: for (i, entry) in entries.iter().enumerate() {
        if let Err(why) = admit(&mut accounts, &entries[..i], entry) {
            return Err(PlainFault::Unlawful { lsn: start, why });
        }
        start = entry.end;
    }
    Ok(accounts)
}
