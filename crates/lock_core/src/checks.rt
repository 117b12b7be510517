//! Tests of changes that every judge makes.

ghost use Rattle.std.specs.Prelude.{◌≡◌, ◌<◌, ◌↔◌, length, IsTrue};
ghost use Rattle.std.specs.List.{AllByRecursion};
ghost use Rattle.lock_core.specs.Tests.{IsPaired};
ghost use Rattle.lock_core.specs.AccountRows.{row};

use crate::update::Change;
use lsn_space::Balances;

/// Whether a change is paired with those of its transaction before it, the newest of them first.
pub fn is_paired(before: &[Change], change: &Change) -> bool
    ensures { IsTrue result ↔ IsPaired before.now change.now }
{
    match before {
        [newest, ..] if newest.delta < 0 => {
            i64::from(change.delta) == -i64::from(newest.delta) && change.account != newest.account
        }
        _ => change.delta < 0,
    }
}

/// Whether the change names the last Commit on its account.
pub fn is_current(accounts: &Balances, change: &Change) -> bool
    requires { change.now.account < length accounts.now.rows }
    ensures { IsTrue result ↔ (change.now.prev ≡ (row accounts.now.rows change.now.account).1) }
{
    change.prev.units() == accounts.at(change.account).1
}

/// Whether each of the changes still names the last Commit on its account.
pub fn are_current(accounts: &Balances, changes: &[Change]) -> bool
    requires { AllByRecursion (λ change. change.account < length accounts.now.rows) changes.now }
    ensures { IsTrue result ↔ AllByRecursion (λ change. change.prev ≡ (row accounts.now.rows change.account).1) changes.now }
{
    for change in changes {
        if !is_current(accounts, change) {
            return false;
        }
    }
    true
}
