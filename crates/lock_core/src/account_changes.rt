//! What a Commit makes of the accounts that its transaction changes.

ghost use Rattle.std.specs.Prelude.{◌≡◌, ◌==◌, ◌<◌, ◌≤◌, ◌*◌, ◌^◌, if◌then◌else◌, length, MatchOption};
ghost use Rattle.std.specs.Bool.{OnTrue, OnFalse};
ghost use Rattle.std.specs.List.{AllByRecursion};
ghost use Rattle.log_record.specs.declared.limits.TheConstants.{MOST_LEGS};
ghost use Rattle.log_record.specs.Spelling.{IsBalance};
ghost use Rattle.lock_core.specs.Records.{gain, loss};
ghost use Rattle.lock_core.specs.Transactions.{touches};
ghost use Rattle.lock_core.specs.Sums.{moved};
ghost use Rattle.lock_core.specs.AccountRows.{row, IsBalanceAfter, LeavesRange, AppliesToAccount, AppliesChanges, AreRowsInRange, LeavesSome};

use crate::update::Change;
use lsn_space::{Balances, Lsn, MOST_BALANCE};

/// What the change adds to the account.
fn gain(change: &Change, account: u32) -> u32
    ensures { result ≡ (if change.now.account == account then gain change.now.delta else 0) }
{
    if change.account == account && change.delta > 0 {
        change.delta as u32
    } else {
        0
    }
}

/// What the change takes from the account.
fn loss(change: &Change, account: u32) -> u32
    ensures { result ≡ (if change.now.account == account then loss change.now.delta else 0) }
{
    if change.account == account && change.delta < 0 {
        change.delta.unsigned_abs()
    } else {
        0
    }
}

/// What the changes add to the account, and what they take from it.
fn moves(changes: &[Change], account: u32) -> (u64, u64)
    requires { length changes.now ≤ 2 * MOST_LEGS }
    ensures gains { (result.0 ≡ moved gain account changes.now) × (result.0 < 2 ^ 36) }
    ensures losses { (result.1 ≡ moved loss account changes.now) × (result.1 < 2 ^ 36) }
{
    let mut gains = 0;
    let mut losses = 0;
    for change in changes {
        gains += u64::from(gain(change, account));
        losses += u64::from(loss(change, account));
    }
    (gains, losses)
}

fn touches(changes: &[Change], account: u32) -> bool
    ensures { result ≡ touches account changes.now }
{
    changes.iter().any(|change| change.account == account)
}

/// The account's balance after the changes, unless it leaves its range.
fn balance_after(balance: u64, changes: &[Change], account: u32) -> Option<u64>
    requires few { length changes.now ≤ 2 * MOST_LEGS }
    requires range { IsBalance balance }
    ensures { MatchOption result (LeavesRange changes.now account balance)
        (λ after. IsBalance after × IsBalanceAfter changes.now account balance after) }
{
    let (gains, losses) = moves(changes, account);
    let after = (balance + gains).checked_sub(losses)?;
    if after <= MOST_BALANCE {
        Some(after)
    } else {
        None
    }
}

/// Makes the part of a Commit of the changes that concerns one account of theirs: true, and its row is then the one after
/// it; or false where its balance leaves its range.
fn apply_to_account(accounts: &mut Balances, changes: &[Change], account: u32, end: Lsn) -> bool
    requires few { length changes.now ≤ 2 * MOST_LEGS }
    requires known { account < length accounts.old.rows }
    requires range { IsBalance (row accounts.old.rows account).0 }
    ensures room { accounts.new.room ≡ accounts.old.room }
    ensures applied { OnTrue result (AppliesToAccount changes.now account end accounts.old.rows accounts.new.rows) }
    ensures leaves { OnFalse result (LeavesRange changes.now account (row accounts.old.rows account).0) }
{
    let (balance, _) = accounts.at(account);
    let Some(after) = balance_after(balance, changes, account) else {
        return false;
    };
    accounts.set(account, after, end.units());
    true
}

/// Makes a Commit of the changes, which ends here: true, and the accounts are then those after it; or
/// false where a balance leaves its range, and the accounts are then of no use.
pub fn apply_changes(accounts: &mut Balances, changes: &[Change], end: Lsn) -> bool
    requires few { length changes.now ≤ 2 * MOST_LEGS }
    requires known { AllByRecursion (λ change. change.account < length accounts.old.rows) changes.now }
    requires range { AreRowsInRange accounts.old.rows }
    ensures room { accounts.new.room ≡ accounts.old.room }
    ensures applied { OnTrue result (AppliesChanges changes.now end accounts.old.rows accounts.new.rows) }
    ensures leaves { OnFalse result (LeavesSome changes.now accounts.old.rows) }
{
    for (i, change) in changes.iter().enumerate() {
        if !touches(&changes[..i], change.account)
            && !apply_to_account(accounts, changes, change.account, end)
        {
            return false;
        }
    }
    true
}
