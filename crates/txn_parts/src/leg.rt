//! One leg of a transfer, on the balances of the accounts that are held.
ghost use Rattle.std.specs.Prelude.{◌≡◌, ◌≤◌, pos, neg_ℤ, map, All, Contains, IfSome, IfNone};
ghost use Rattle.std.specs.List.{AllZip};
ghost use Rattle.lsn_space.specs.declared.opening.TheConstants.{MOST_AMOUNT};
ghost use Rattle.log_record.specs.Spelling.{spelling, IsAccount};
ghost use Rattle.log_record.specs.declared.rec.Rec.TheVariants as Rec;
ghost use Rattle.txn_jobs.specs.Accounts.{HasAccountsOf};
ghost use Rattle.txn_parts.specs.Holdings.{account_of};
ghost use Rattle.txn_parts.specs.Leg.{IsRefused, CanMake, CanBear, IsAfter};

use crate::taken_account::TakenAccount;
use lock_core::Leg;
use log_record::{Units, spell_update};
use lsn_space::{Lsn, MOST_BALANCE};
use txn_jobs::Answer;

/// The answer that refuses the leg at this place, from 1, on the balances as they are now. None: it can be made.
pub fn refusal(holdings: &[TakenAccount], leg: Leg, place: u32) -> Option<Answer>
    requires both { HasAccountsOf (map account_of holdings.now) leg }
    requires amount { leg.2 ≤ MOST_AMOUNT }
    ensures refused { IfSome result (IsRefused holdings.now leg place) }
    ensures fits { IfNone result (CanMake holdings.now leg) }
{
    if holding_of(holdings, leg.payer).balance < leg.amount as u64 {
        return Some(Answer::Short(place));
    }
    if holding_of(holdings, leg.payee).balance > MOST_BALANCE - leg.amount as u64 {
        return Some(Answer::Over(place));
    }
    None
}

/// The holding of this account.
pub fn holding_of(holdings: &[TakenAccount], account: u32) -> &TakenAccount
    requires { Contains (map account_of holdings.now) account }
    ensures found { Contains holdings.now result.now }
    ensures account { result.now.taken.account ≡ account }
{
    'holdings: for holding in holdings {
        if holding.taken.account == account {
            return holding;
        }
    }
    unreachable!()
}

/// Spells the Update of an account that pays.
pub fn spell_debit(units: &mut Units, number: u32, holding: &TakenAccount, amount: u32)
    requires account { IsAccount holding.now.taken.account }
    requires amount { amount ≤ MOST_AMOUNT }
    ensures { units.new ≡ spelling (Rec.Update number holding.now.taken.account (neg_ℤ (pos amount)) holding.now.taken.mark) }
{
    let delta = -(amount as i32);
    let prev = Lsn::new(holding.taken.mark);
    spell_update(units, number, holding.taken.account, delta, prev);
}

/// Spells the Update of an account that receives.
pub fn spell_credit(units: &mut Units, number: u32, holding: &TakenAccount, amount: u32)
    requires account { IsAccount holding.now.taken.account }
    requires amount { amount ≤ MOST_AMOUNT }
    ensures { units.new ≡ spelling (Rec.Update number holding.now.taken.account (pos amount) holding.now.taken.mark) }
{
    let prev = Lsn::new(holding.taken.mark);
    spell_update(units, number, holding.taken.account, amount as i32, prev);
}

/// Moves the leg's amount from the balance of its payer to that of its payee.
pub fn move_amount(holdings: &mut [TakenAccount], leg: Leg)
    requires { All (CanBear leg) holdings.old }
    ensures { AllZip (IsAfter leg) holdings.old holdings.new }
{
    'holdings: for holding in holdings.iter_mut() {
        bear(holding, leg);
    }
}

fn bear(holding: &mut TakenAccount, leg: Leg)
    requires { CanBear leg holding.old }
    ensures { IsAfter leg holding.old holding.new }
{
    if holding.taken.account == leg.payer {
        holding.balance -= leg.amount as u64;
    } else if holding.taken.account == leg.payee {
        holding.balance += leg.amount as u64;
    }
}
