//! What the changes of a transaction do to one account.
ghost use Rattle.std.specs.Prelude.{◌≡◌, ◌==◌, ◌≤◌, ℕ, pos, neg_ℤ, ◌+ℤ◌, ◌≤ℤ◌, if◌then◌else◌, length};
ghost use Rattle.log_record.specs.Spelling.{IsBalance};
ghost use Rattle.lock_core.specs.declared.update.TheConstants.{MOST_UPDATES};
ghost use Rattle.lock_core.specs.Transactions.{touches};
ghost use Rattle.ledger_view.specs.Entries.{net_of};

use lock_core::Change;

/// What a change does to the account.
fn delta_on(change: &Change, account: u32) -> i64
    ensures value { result ≡ (if change.now.account == account then change.now.delta else pos 0) }
    ensures least { neg_ℤ (pos 2147483648) ≤ℤ result }
    ensures most { result ≤ℤ pos 2147483648 }
{
    if change.account == account {
        i64::from(change.delta)
    } else {
        0
    }
}

/// The sum of the changes' deltas on the account.
pub fn net_of(changes: &[Change], account: u32) -> i64
    requires { length changes.now ≤ MOST_UPDATES }
    ensures { result ≡ net_of account changes.now }
{
    let mut net: i64 = 0;
    for change in changes {
        net += delta_on(change, account);
    }
    net
}

/// The balance from which a net leads to this one.
pub fn balance_before(balance: u64, net: i64) -> u64
    requires range { IsBalance balance }
    requires from { (before : ℕ) × IsBalance before × (pos balance ≡ pos before +ℤ net) }
    ensures { (before : ℕ) → pos balance ≡ pos before +ℤ net → result ≡ before }
{
    (balance as i64 - net) as u64
}

/// Whether one of the changes is of the account.
pub fn touches(changes: &[Change], account: u32) -> bool
    ensures { result ≡ touches account changes.now }
{
    changes.iter().any(|change| change.account == account)
}
