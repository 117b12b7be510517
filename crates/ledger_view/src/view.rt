//! The view of a log: the entries of each account, and the judge that took its records.

ghost use Rattle.std.specs.Prelude.{◌≡◌, ◌<◌, ◌≤◌, ◌+◌, ◌∷◌, ◌⊎◌, [], List, length, IfOk, IfErr, IfSome, IfNone, OnOk};
ghost use Rattle.std.specs.List.{AllByRecursion};
ghost use Rattle.log_record.specs.declared.rec.Rec.{Rec};
ghost use Rattle.log_record.specs.declared.rec.Placed.{Placed};
ghost use Rattle.log_record.specs.Spelling.{spelling, IsBalance, IsSpellable};
ghost use Rattle.lsn_space.specs.declared.lsn.TheConstants.{LAST};
ghost use Rattle.lsn_space.specs.Opening.{IsSnapshot};
ghost use Rattle.lock_core.specs.declared.update.Change.{Change};
ghost use Rattle.lock_core.specs.declared.update.TheConstants.{MOST_UPDATES};
ghost use Rattle.lock_core.specs.History.{end_from, entry_at};
ghost use Rattle.lock_core.specs.Sums.{Opening};
ghost use Rattle.lock_core.specs.Lawful.{base_with};
ghost use Rattle.lock_core.specs.AccountRows.{opening_of};
ghost use Rattle.lock_core.specs.Taking.{IsTakeFault, HasJudged, count_of};
ghost use Rattle.ledger_view.specs.Entries.{entries_of, balance_up_to};
ghost use Rattle.ledger_view.specs.ViewedAccounts.{account_at, HasViewed};
ghost use Rattle.ledger_view.specs.Entering.{AllLeadOn, Enters, CanAdd, AddsEntry};

use crate::accounts::{Account, Accounts};
use crate::entries::Entries;
use crate::net::touches;
use crate::rows::Row;
use arrayvec::ArrayVec;
use lock_core::{Change, Judge, JudgeFault, TakesRecords};
use log_record::Rec;
use lsn_space::{Lsn, NoMemory};
use std::alloc::Global;

/// The units of a Genesis.
const GENESIS_UNITS: u32 = 2;

/// The units of a Commit.
const COMMIT_UNITS: u32 = 1;

/// Takes a list of records behind an opening, one by one, as long as it is lawful, and keeps what its Commits did to each account.
#[derive(Drop)]
pub struct View {
    judge: Judge,
    accounts: Accounts,
}

/// Gives each account of a Commit's changes its entry, with the balance that the judge has for it.
fn enter_commit(
    accounts: &mut Accounts,
    judge: &Judge,
    changes: &[Change],
    txn: u32,
    end: Lsn,
) -> Result<(), NoMemory>
    requires few { length changes.now ≤ MOST_UPDATES }
    requires known { AllByRecursion (λ change. change.account < length accounts.old) changes.now }
    requires counted { length accounts.old ≡ count_of judge.now }
    requires lead { (opening : Opening) × (h : List Placed) × HasJudged opening judge.now h
        × AllLeadOn opening h changes.now changes.now accounts.old }
    ensures { OnOk result ((opening : Opening) (h : List Placed) → HasJudged opening judge.now h
        → Enters opening h txn end changes.now changes.now accounts.old accounts.new) }
{
    for (i, change) in changes.iter().enumerate() {
        if !touches(&changes[..i], change.account) {
            let balance = judge.balance(change.account);
            accounts.enter(change.account, changes, Row { end, txn, balance })?;
        }
    }
    Ok(())
}

impl View {
    /// A view that was given no record behind this opening, which has no account or is one that a file may begin with.
    pub fn make(alloc: Global, opening: &lsn_space::Opening) -> Result<View, NoMemory>
        requires { (opening.now.accounts ≡ []) ⊎ IsSnapshot opening.now }
        ensures { IfOk result (λ view. HasViewed (opening_of opening.now) view []) }
    {
        let judge = Judge::after(alloc, opening)?;
        let accounts = Accounts::make(alloc, judge.accounts())?;
        Ok(View { judge, accounts })
    }

    /// Takes the record that starts at `lsn`, the end of the list so far. After a fault the view is spent.
    pub fn add(&mut self, lsn: Lsn, rec: &Rec) -> Result<(), JudgeFault>
        requires taken { (opening : Opening) × (h : List Placed) × HasViewed opening self.old h × (lsn ≡ end_from opening.state.end h) }
        requires spellable { IsSpellable rec.now }
        requires fits { lsn + length (spelling rec.now) ≤ LAST }
        ensures taken { OnOk result ((opening : Opening) (h : List Placed) → HasViewed opening self.old h
            → HasViewed opening self.new (entry_at lsn rec.now ∷ h)) }
        ensures fault { IfErr result (λ fault. (opening : Opening) (h : List Placed) → HasViewed opening self.old h
            → IsTakeFault opening h (entry_at lsn rec.now) fault) }
    {
        match rec {
            Rec::Genesis { account, balance } => self.add_genesis(lsn, rec, *account, *balance),
            Rec::Commit { txn, legs } => self.add_commit(lsn, *txn, *legs),
            _ => self.judge.take(lsn, rec),
        }
    }

    fn add_genesis(
        &mut self,
        lsn: Lsn,
        rec: &Rec,
        account: u32,
        balance: u64,
    ) -> Result<(), JudgeFault>
        requires can { CanAdd self.old lsn rec.now }
        requires is { rec.now ≡ Rec.Genesis account balance }
        ensures { AddsEntry self.old self.new (entry_at lsn rec.now) result }
    {
        self.judge.take(lsn, rec)?;
        match self.accounts.push(Lsn::new(lsn.units() + GENESIS_UNITS)) {
            Ok(()) => Ok(()),
            Err(NoMemory) => Err(JudgeFault::NoMemory),
        }
    }

    fn add_commit(&mut self, lsn: Lsn, txn: u32, legs: u32) -> Result<(), JudgeFault>
        requires { CanAdd self.old lsn (Rec.Commit txn legs) }
        ensures { AddsEntry self.old self.new (entry_at lsn (Rec.Commit txn legs)) result }
    {
        let mut changes = ArrayVec::new();
        self.judge.take_commit(lsn, txn, legs, &mut changes)?;
        let end = Lsn::new(lsn.units() + COMMIT_UNITS);
        match enter_commit(
            &mut self.accounts,
            &self.judge,
            changes.as_slice(),
            txn,
            end,
        ) {
            Ok(()) => Ok(()),
            Err(NoMemory) => Err(JudgeFault::NoMemory),
        }
    }

    /// What is kept of an account, if it is known.
    fn account(&self, account: u32) -> Option<&Account>
        ensures some { IfSome result (λ kept. (account < length self.now.accounts) × (kept.now ≡ account_at self.now.accounts account)) }
        ensures none { IfNone result (length self.now.accounts ≤ account) }
    {
        if (account as usize) < self.accounts.count() {
            Some(self.accounts.at(account))
        } else {
            None
        }
    }

    /// The balance of the account after the records that end at or below this LSN, or `None` where they and the opening have no
    /// such account.
    pub fn balance_at(&self, account: u32, lsn: Lsn) -> Option<u64>
        requires viewed { (opening : Opening) × (h : List Placed) × HasViewed opening self.now h }
        ensures balance { (opening : Opening) (h : List Placed) → HasViewed opening self.now h
            → result ≡ balance_up_to opening h account lsn }
        ensures range { IfSome result (λ balance. IsBalance balance) }
    {
        match self.account(account) {
            Some(kept) if kept.since.units() <= lsn.units() => {
                Some(kept.entries.balance_to(lsn, self.judge.balance(account)))
            }
            _ => None,
        }
    }

    /// The balance with which the account begins, that of its Genesis or the opening's, or `None` where the records and the opening have
    /// no such account.
    pub fn first_balance(&self, account: u32) -> Option<u64>
        requires viewed { (opening : Opening) × (h : List Placed) × HasViewed opening self.now h }
        ensures some { IfSome result (λ balance. (opening : Opening) (h : List Placed) → HasViewed opening self.now h
            → (account < (base_with opening h).accounts) × (balance ≡ (base_with opening h).balance account)) }
        ensures none { IfNone result ((opening : Opening) (h : List Placed) → HasViewed opening self.now h
            → (base_with opening h).accounts ≤ account) }
    {
        match self.account(account) {
            Some(kept) => Some(kept.entries.first_balance(self.judge.balance(account))),
            None => None,
        }
    }

    /// The number of accounts.
    pub fn accounts(&self) -> u32
        ensures { (opening : Opening) (h : List Placed) → HasViewed opening self.now h → result ≡ (base_with opening h).accounts }
    {
        self.judge.accounts()
    }

    /// The entries of the account, or `None` where the records and the opening have no such account.
    pub fn entries(&self, account: u32) -> Option<&Entries>
        ensures some { IfSome result (λ entries. (opening : Opening) (h : List Placed) → HasViewed opening self.now h
            → (account < (base_with opening h).accounts) × (entries.now ≡ entries_of opening h account)) }
        ensures none { IfNone result ((opening : Opening) (h : List Placed) → HasViewed opening self.now h
            → (base_with opening h).accounts ≤ account) }
    {
        match self.account(account) {
            Some(kept) => Some(&kept.entries),
            None => None,
        }
    }
}

impl TakesRecords for View {
    ghost use Rattle.ledger_view.specs.ViewedAccounts.{HasViewed};

    ghost has_taken = { HasViewed };

    #[inline(always)]
    fn after(alloc: Global, opening: &lsn_space::Opening) -> Result<View, NoMemory> {
        View::make(alloc, opening)
    }

    #[inline(always)]
    fn take(&mut self, lsn: Lsn, rec: &Rec) -> Result<(), JudgeFault> {
        self.add(lsn, rec)
    }

    ghost lawful = { λ opening view h viewed. viewed.judged.ledger.judged.lawful };
}
