//! The accounts of a transfer, in the order in which every worker takes accounts.
ghost use Rattle.std.specs.Prelude.{◌≡◌, ◌<◌, ◌∷◌, [], ℕ, All};
ghost use Rattle.std.specs.List.Sorted.{IsStrictlyIncreasing};
ghost use Rattle.arrayvec.specs.ArrayVec.{array_vec_len};
ghost use Rattle.txn_jobs.specs.declared.accounts.TheConstants.{MOST_PARTIES};
ghost use Rattle.txn_jobs.specs.Accounts.{HasAccountsOf, IsAccountOf, AddsAccount};

use arrayvec::ArrayVec;
use lock_core::Job;
use log_record::MOST_LEGS;

/// The most accounts of a transfer: two for each leg.
pub const MOST_PARTIES: usize = 2 * MOST_LEGS as usize;

/// Puts the accounts of the transfer into the list, in ascending order, none of them twice. What the list held is lost.
#[inline(always)]
pub fn list_accounts(job: &Job, accounts: &mut ArrayVec<u32, MOST_PARTIES>)
    ensures rising { IsStrictlyIncreasing accounts.new.items }
    ensures all { All (HasAccountsOf accounts.new.items) job.now.legs }
    ensures only { All (IsAccountOf job.now.legs) accounts.new.items }
{
    accounts.clear();
    // Most transfers have one leg, and one comparison puts its two accounts in order.
    if let [leg] = job.legs.as_slice() {
        let leg = *leg;
        return pair(leg.payer, leg.payee, accounts);
    }
    'legs: for leg in job.legs.as_slice() {
        let leg = *leg;
        add(accounts, leg.payer);
        add(accounts, leg.payee);
    }
}

/// Both accounts in ascending order, or the one that they are.
fn pair(payer: u32, payee: u32, accounts: &mut ArrayVec<u32, MOST_PARTIES>)
    requires empty { accounts.old.items ≡ [] }
    ensures rising { IsStrictlyIncreasing accounts.new.items }
    ensures all { (amount : ℕ) → HasAccountsOf accounts.new.items (payer, payee, amount) }
    ensures only { (amount : ℕ) → All (IsAccountOf ((payer, payee, amount) ∷ [])) accounts.new.items }
{
    if payer == payee {
        accounts.push(payer);
        return;
    }
    accounts.push(payer.min(payee));
    accounts.push(payer.max(payee));
}

/// Puts the account in its place among the others, where it isn't one of them.
fn add(accounts: &mut ArrayVec<u32, MOST_PARTIES>, account: u32)
    requires rising { IsStrictlyIncreasing accounts.old.items }
    requires room { array_vec_len accounts.old < MOST_PARTIES }
    ensures rising { IsStrictlyIncreasing accounts.new.items }
    ensures added { AddsAccount account accounts.old.items accounts.new.items }
{
    if let Err(place) = accounts.as_slice().binary_search(&account) {
        accounts.insert(place, account);
    }
}
