//! The tests of the plain program, for a record of each kind.

ghost use Rattle.std.specs.Prelude.{◌≡◌, ◌<◌, ◌∷◌, ℕ, reverse, IfOk, IfErr, OnOk};
ghost use Rattle.log_record.specs.Spelling.{IsAccount, IsBalance, IsLeg};
ghost use Rattle.lsn_space.specs.declared.opening.TheConstants.{MOST_ACCOUNTS};
ghost use Rattle.lock_core.specs.declared.update.Change.{Change};
ghost use Rattle.lock_core.specs.Sums.{no_opening};
ghost use Rattle.lock_core.specs.Lawful.{Passes, IsLawful, base_with};
ghost use Rattle.lock_core.specs.Faults.{IsFirstFailing};
ghost use Rattle.lock_core.specs.AccountRows.{KeepsRows};
ghost use Rattle.lock_core.specs.Judging.{IsJudged, Judges, IsCommitting};

use super::own::own_records;
use crate::account_changes::apply_changes;
use crate::checks::{are_current, is_current, is_paired};
use crate::reason::Why;
use crate::update::{Change, MOST_UPDATES};
use arrayvec::ArrayVec;
use log_record::{Placed, Rec, Text};
use lsn_space::{Balances, Lsn, MOST_ACCOUNTS};

/// Tests a Genesis, and keeps its account.
pub fn admit_genesis(
    accounts: &mut Balances,
    front: &[Placed],
    account: u32,
    balance: u64,
) -> Result<(), Why>
    requires judged { IsJudged no_opening accounts.old (reverse front.now) }
    requires account { IsAccount account }
    requires balance { IsBalance balance }
    ensures tests { (end : ℕ) → Judges no_opening (reverse front.now) (record { end = end; rec = Rec.Genesis account balance }) result }
    ensures kept { (end : ℕ) → OnOk result (let h = record { end = end; rec = Rec.Genesis account balance } ∷ reverse front.now
        in (accounts.new.room ≡ MOST_ACCOUNTS) × KeepsRows accounts.new.rows (base_with no_opening h) h) }
{
    if front.len() != accounts.count() as usize || account != accounts.count() {
        return Err(Why::Genesis);
    }
    accounts.push(balance, 0);
    Ok(())
}

/// Tests an Update.
#[tactic(auto, using(crate::proofs::KindLemmas::lawful_updates_of_at_most_16))]
pub fn admit_update(
    accounts: &Balances,
    front: &[Placed],
    txn: u32,
    change: Change,
) -> Result<(), Why>
    requires judged { IsJudged no_opening accounts.now (reverse front.now) }
    requires number { 0 < txn }
    ensures { (end : ℕ) → Judges no_opening (reverse front.now)
        (record { end = end; rec = Rec.Update txn change.account change.delta change.prev }) result }
{
    if front.is_empty() {
        return Err(Why::Genesis);
    }
    if change.account >= accounts.count() {
        return Err(Why::Account);
    }
    let own = own_records(front, txn);
    if own.is_ended {
        return Err(Why::Ended);
    }
    if own.changes.len() >= MOST_UPDATES {
        return Err(Why::Legs);
    }
    if !is_paired(own.changes.as_slice(), &change) {
        return Err(Why::Pair);
    }
    if !is_current(accounts, &change) {
        return Err(Why::Prev);
    }
    Ok(())
}

/// What a Commit of so many legs commits, where it passes the tests up to that of the legs.
#[tactic(auto, using(crate::proofs::KindLemmas::lawful_updates_of_at_most_16))]
fn committed_changes(
    front: &[Placed],
    txn: u32,
    legs: u32,
) -> Result<ArrayVec<Change, MOST_UPDATES>, Why>
    requires lawful { IsLawful no_opening (reverse front.now) }
    requires number { 0 < txn }
    requires legs { IsLeg legs }
    ensures ok { IfOk result (λ changes. IsCommitting no_opening (reverse front.now) txn legs changes.items) }
    ensures why { IfErr result (λ why. (end : ℕ) → IsFirstFailing
        (Passes no_opening (reverse front.now) (record { end = end; rec = Rec.Commit txn legs })) why) }
{
    if front.is_empty() {
        return Err(Why::Genesis);
    }
    let own = own_records(front, txn);
    if own.is_ended {
        return Err(Why::Ended);
    }
    if own.changes.len() != 2 * legs as usize {
        return Err(Why::Legs);
    }
    Ok(own.changes)
}

/// Tests a Commit, and applies its changes to the accounts.
pub fn admit_commit(
    accounts: &mut Balances,
    front: &[Placed],
    txn: u32,
    legs: u32,
    end: Lsn,
) -> Result<(), Why>
    requires judged { IsJudged no_opening accounts.old (reverse front.now) }
    requires number { 0 < txn }
    requires legs { IsLeg legs }
    ensures tests { Judges no_opening (reverse front.now) (record { end = end; rec = Rec.Commit txn legs }) result }
    ensures kept { OnOk result (let h = record { end = end; rec = Rec.Commit txn legs } ∷ reverse front.now
        in (accounts.new.room ≡ MOST_ACCOUNTS) × KeepsRows accounts.new.rows (base_with no_opening h) h) }
{
    let changes = match committed_changes(front, txn, legs) {
        Ok(changes) => changes,
        Err(why) => return Err(why),
    };
    let changes = changes.as_slice();
    if !are_current(accounts, changes) {
        return Err(Why::Stale);
    }
    if !apply_changes(accounts, changes, end) {
        return Err(Why::Balance);
    }
    Ok(())
}

/// Tests a Short or an Over.
#[tactic(auto, using(crate::proofs::KindLemmas::lawful_updates_of_at_most_16))]
pub fn admit_refusal(front: &[Placed], txn: u32, leg: u32) -> Result<(), Why>
    requires front { IsLawful no_opening (reverse front.now) }
    requires number { 0 < txn }
    requires leg { IsLeg leg }
    ensures short { (end : ℕ) → Judges no_opening (reverse front.now) (record { end = end; rec = Rec.Short txn leg }) result }
    ensures over { (end : ℕ) → Judges no_opening (reverse front.now) (record { end = end; rec = Rec.Over txn leg }) result }
{
    if front.is_empty() {
        return Err(Why::Genesis);
    }
    let own = own_records(front, txn);
    if own.is_ended {
        return Err(Why::Ended);
    }
    if own.changes.len() != 2 * (leg as usize - 1) {
        return Err(Why::Legs);
    }
    Ok(())
}

/// Tests a Note.
#[tactic(auto, using(crate::proofs::KindLemmas::lawful_updates_of_at_most_16))]
pub fn admit_note(front: &[Placed], txn: u32, text: &Text) -> Result<(), Why>
    requires lawful { IsLawful no_opening (reverse front.now) }
    requires number { 0 < txn }
    ensures { (end : ℕ) → Judges no_opening (reverse front.now) (record { end = end; rec = Rec.Note txn text.now }) result }
{
    if front.is_empty() {
        return Err(Why::Genesis);
    }
    if own_records(front, txn).is_ended {
        return Err(Why::Ended);
    }
    Ok(())
}
