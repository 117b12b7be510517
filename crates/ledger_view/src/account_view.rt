//! The view of one account of a log: its entries, and the judge that took the records.

ghost use Rattle.std.specs.Prelude.{◌≡◌, ◌<◌, ◌≤◌, ◌+◌, ◌∷◌, ◌⊎◌, [], ℕ, List, length, IfOk, IfErr, IfSome, IfNone, OnOk};
ghost use Rattle.log_record.specs.declared.rec.Rec.{Rec};
ghost use Rattle.log_record.specs.declared.rec.Placed.{Placed};
ghost use Rattle.log_record.specs.Spelling.{spelling, IsLeg, IsSpellable};
ghost use Rattle.lsn_space.specs.declared.lsn.TheConstants.{LAST};
ghost use Rattle.lsn_space.specs.Opening.{IsSnapshot};
ghost use Rattle.lock_core.specs.History.{end_from, entry_at};
ghost use Rattle.lock_core.specs.Sums.{Opening};
ghost use Rattle.lock_core.specs.Lawful.{base_with};
ghost use Rattle.lock_core.specs.AccountRows.{opening_of};
ghost use Rattle.lock_core.specs.Taking.{IsTakeFault};
ghost use Rattle.ledger_view.specs.Entries.{entries_of};
ghost use Rattle.ledger_view.specs.KeptAccount.{HasKept};

use crate::entries::Entries;
use crate::net::touches;
use crate::rows::Row;
use arrayvec::ArrayVec;
use lock_core::{Judge, JudgeFault};
use log_record::Rec;
use lsn_space::{Lsn, NoMemory};
use std::alloc::Global;

/// The units of a Commit.
const COMMIT_UNITS: u32 = 1;

/// Takes a list of records behind an opening, one by one, as long as it is lawful, and keeps what its Commits did to one account.
#[derive(Drop)]
pub struct AccountView {
    account: u32,
    judge: Judge,
    entries: Entries,
}

impl AccountView {
    /// A view of this account that was given no record behind this opening, which has no account or is one that a file may begin with.
    pub fn make(
        alloc: Global,
        opening: &lsn_space::Opening,
        account: u32,
    ) -> Result<AccountView, NoMemory>
        requires { (opening.now.accounts ≡ []) ⊎ IsSnapshot opening.now }
        ensures { IfOk result (λ view. HasKept account (opening_of opening.now) view []) }
    {
        Ok(AccountView {
            account,
            judge: Judge::after(alloc, opening)?,
            entries: Entries::new(alloc),
        })
    }

    /// Takes the record that starts at `lsn`, the end of the list so far. After a fault the view is spent.
    pub fn add(&mut self, lsn: Lsn, rec: &Rec) -> Result<(), JudgeFault>
        requires taken { (account : ℕ) × (opening : Opening) × (h : List Placed) × HasKept account opening self.old h
            × (lsn ≡ end_from opening.state.end h) }
        requires spellable { IsSpellable rec.now }
        requires fits { lsn + length (spelling rec.now) ≤ LAST }
        ensures taken { OnOk result ((account : ℕ) (opening : Opening) (h : List Placed) → HasKept account opening self.old h
            → lsn ≡ end_from opening.state.end h → HasKept account opening self.new (entry_at lsn rec.now ∷ h)) }
        ensures fault { IfErr result (λ fault. (account : ℕ) (opening : Opening) (h : List Placed) → HasKept account opening self.old h
            → IsTakeFault opening h (entry_at lsn rec.now) fault) }
    {
        match rec {
            Rec::Commit { txn, legs } => self.add_commit(lsn, *txn, *legs),
            _ => self.judge.take(lsn, rec),
        }
    }

    fn add_commit(&mut self, lsn: Lsn, txn: u32, legs: u32) -> Result<(), JudgeFault>
        requires taken { (account : ℕ) × (opening : Opening) × (h : List Placed) × HasKept account opening self.old h
            × (lsn ≡ end_from opening.state.end h) }
        requires legs { IsLeg legs }
        requires fits { lsn < LAST }
        ensures taken { OnOk result ((account : ℕ) (opening : Opening) (h : List Placed) → HasKept account opening self.old h
            → lsn ≡ end_from opening.state.end h → HasKept account opening self.new (entry_at lsn (Rec.Commit txn legs) ∷ h)) }
        ensures fault { IfErr result (λ fault. (account : ℕ) (opening : Opening) (h : List Placed) → HasKept account opening self.old h
            → IsTakeFault opening h (entry_at lsn (Rec.Commit txn legs)) fault) }
    {
        let mut open = ArrayVec::new();
        self.judge.take_commit(lsn, txn, legs, &mut open)?;
        let changes = open.as_slice();
        if !touches(changes, self.account) {
            return Ok(());
        }
        let balance = self.judge.balance(self.account);
        let end = Lsn::new(lsn.units() + COMMIT_UNITS);
        let row = Row { end, txn, balance };
        match self.entries.enter(self.account, changes, row) {
            Ok(()) => Ok(()),
            Err(NoMemory) => Err(JudgeFault::NoMemory),
        }
    }

    /// The balance with which the account begins, that of its Genesis or the opening's, or `None` where the records and the opening don't
    /// have it.
    pub fn first_balance(&self) -> Option<u64>
        requires kept { (account : ℕ) × (opening : Opening) × (h : List Placed) × HasKept account opening self.now h }
        ensures some { IfSome result (λ balance. (account : ℕ) (opening : Opening) (h : List Placed) → HasKept account opening self.now h
            → (account < (base_with opening h).accounts) × (balance ≡ (base_with opening h).balance account)) }
        ensures none { IfNone result ((account : ℕ) (opening : Opening) (h : List Placed) → HasKept account opening self.now h
            → (base_with opening h).accounts ≤ account) }
    {
        if self.account < self.judge.accounts() {
            Some(self.entries.first_balance(self.judge.balance(self.account)))
        } else {
            None
        }
    }

    /// Its entries: none where the records and the opening don't have it.
    pub fn entries(&self) -> &Entries
        ensures { (account : ℕ) (opening : Opening) (h : List Placed) → HasKept account opening self.now h
            → account < (base_with opening h).accounts → result.now ≡ entries_of opening h account }
    {
        &self.entries
    }
}
