//! The judge: it takes a list of records, one by one.

ghost use Rattle.std.specs.Prelude.{◌≡◌, ◌<◌, ◌≤◌, ◌+◌, ◌∷◌, ◌⊎◌, [], List, length, IfOk, IfErr, OnOk};
ghost use Rattle.log_record.specs.declared.rec.Placed.{Placed};
ghost use Rattle.log_record.specs.Spelling.{spelling, IsLeg, IsSpellable};
ghost use Rattle.log_record.specs.declared.rec.Rec.{Rec};
ghost use Rattle.lsn_space.specs.declared.lsn.TheConstants.{LAST};
ghost use Rattle.lock_core.specs.History.{end_from, entry_at};
ghost use Rattle.lsn_space.specs.Opening.{IsSnapshot};
ghost use Rattle.lock_core.specs.Sums.{Opening, no_opening, balance_of, last_commit_of, ShowsAccounts};
ghost use Rattle.lock_core.specs.Lawful.{base_with, opening_after};
ghost use Rattle.lock_core.specs.AccountRows.{opening_of};
ghost use Rattle.lock_core.specs.Taking.{IsTakeFault, HasJudged, count_of};
ghost use Rattle.lock_core.specs.Transactions.{open_changes_of};

use crate::ledger::Ledger;
use crate::reason::JudgeFault;
use crate::update::{Change, MOST_UPDATES, txn_of};
use arrayvec::ArrayVec;
use log_record::Rec;
use lsn_space::{Balances, Lsn, NoMemory};
use std::alloc::Global;

/// Takes a list of records behind an opening, one by one, as long as it is lawful, and keeps what it says: balances, last
/// Commits, and the greatest transaction number. Averaged over the list, a record's time does not grow with it.
#[derive(Drop)]
pub struct Judge {
    ledger: Ledger,
    greatest: u32,
}

impl Judge {
    /// A judge that has taken no record of a whole log.
    pub fn make(alloc: Global) -> Result<Judge, NoMemory>
        ensures { IfOk result (λ judge. HasJudged no_opening judge []) }
    {
        let ledger = Ledger::make(alloc)?;
        Ok(Judge {
            ledger,
            greatest: 0,
        })
    }

    /// A judge that has taken no record behind this opening, which has no account or is one that a file may begin with.
    pub fn after(alloc: Global, opening: &lsn_space::Opening) -> Result<Judge, NoMemory>
        requires { (opening.now.accounts ≡ []) ⊎ IsSnapshot opening.now }
        ensures { IfOk result (λ judge. HasJudged (opening_of opening.now) judge []) }
    {
        let ledger = Ledger::after(alloc, opening)?;
        Ok(Judge {
            ledger,
            greatest: opening.txn,
        })
    }

    /// Takes the record that starts at `lsn`, the end of the list taken so far. After a fault the judge is spent.
    pub fn take(&mut self, lsn: Lsn, rec: &Rec) -> Result<(), JudgeFault>
        requires taken { (opening : Opening) × (h : List Placed) × HasJudged opening self.old h × (lsn ≡ end_from opening.state.end h) }
        requires spellable { IsSpellable rec.now }
        requires fits { lsn + length (spelling rec.now) ≤ LAST }
        ensures taken { OnOk result ((opening : Opening) (h : List Placed) → HasJudged opening self.old h
            → HasJudged opening self.new (entry_at lsn rec.now ∷ h)) }
        ensures fault { IfErr result (λ fault. (opening : Opening) (h : List Placed) → HasJudged opening self.old h
            → IsTakeFault opening h (entry_at lsn rec.now) fault) }
    {
        self.ledger.take(lsn, rec)?;
        self.greatest = txn_of(rec).max(self.greatest);
        Ok(())
    }

    /// Takes the Commit that starts at `lsn`, as `take` does. What the Updates of its transaction say, newest first, is put into the
    /// list that is lent: what it held is lost.
    pub fn take_commit(
        &mut self,
        lsn: Lsn,
        txn: u32,
        legs: u32,
        changes: &mut ArrayVec<Change, MOST_UPDATES>,
    ) -> Result<(), JudgeFault>
        requires taken { (opening : Opening) × (h : List Placed) × HasJudged opening self.old h × (lsn ≡ end_from opening.state.end h) }
        requires legs { IsLeg legs }
        requires fits { lsn < LAST }
        ensures taken { OnOk result ((opening : Opening) (h : List Placed) → HasJudged opening self.old h
            → HasJudged opening self.new (entry_at lsn (Rec.Commit txn legs) ∷ h)) }
        ensures fault { IfErr result (λ fault. (opening : Opening) (h : List Placed) → HasJudged opening self.old h
            → IsTakeFault opening h (entry_at lsn (Rec.Commit txn legs)) fault) }
        ensures changes { OnOk result ((opening : Opening) (h : List Placed) → HasJudged opening self.old h
            → changes.new.items ≡ open_changes_of txn h) }
    {
        let end = Lsn::new(lsn.units() + 1);
        self.ledger.take_commit(txn, legs, end, changes)?;
        self.greatest = txn.max(self.greatest);
        Ok(())
    }

    /// The number of accounts.
    pub fn accounts(&self) -> u32
        ensures count { result ≡ count_of self.now }
        ensures accounts { (opening : Opening) (h : List Placed) → HasJudged opening self.now h → result ≡ (base_with opening h).accounts }
    {
        self.ledger.accounts.count()
    }

    /// The balance of the account.
    pub fn balance(&self, account: u32) -> u64
        requires { account < count_of self.now }
        ensures { (opening : Opening) (h : List Placed) → HasJudged opening self.now h
            → result ≡ balance_of (base_with opening h) h account }
    {
        self.ledger.accounts.at(account).0
    }

    /// The end of the last Commit on the account, the opening's where there is none, and 0 in a whole log.
    pub fn last(&self, account: u32) -> u32
        requires { account < count_of self.now }
        ensures { (opening : Opening) (h : List Placed) → HasJudged opening self.now h
            → result ≡ last_commit_of (base_with opening h) h account }
    {
        self.ledger.accounts.at(account).1
    }

    /// The greatest transaction number, the opening's among them, 0 where there is none.
    pub fn greatest_txn(&self) -> u32
        ensures { (opening : Opening) (h : List Placed) → HasJudged opening self.now h → result ≡ (opening_after opening h).txn }
    {
        self.greatest
    }

    /// The accounts of the list taken: their balances and last Commits.
    pub fn into_accounts(self) -> Balances
        ensures { (opening : Opening) (h : List Placed) → HasJudged opening self h → ShowsAccounts result.rows (base_with opening h) h }
    {
        let Judge { ledger, .. } = self;
        let Ledger { accounts, .. } = ledger;
        accounts
    }
}
