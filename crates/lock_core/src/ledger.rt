//! The ledger that a judge keeps, and how it takes a record of each kind.

ghost use Rattle.std.specs.Prelude.{◌≡◌, ◌<◌, ◌≤◌, ◌+◌, ◌∷◌, ◌⊎◌, ◌↔◌, [], true, false, ℕ, List, length, IfOk, IfErr, IfSome, IfNone, IsTrue, OnOk};
ghost use Rattle.log_record.specs.declared.rec.Rec.{Rec};
ghost use Rattle.log_record.specs.declared.rec.Placed.{Placed};
ghost use Rattle.log_record.specs.Spelling.{spelling, IsAccount, IsBalance, IsLeg, IsSpellable};
ghost use Rattle.lsn_space.specs.declared.lsn.TheConstants.{LAST};
ghost use Rattle.lsn_space.specs.declared.opening.TheConstants.{MOST_ACCOUNTS};
ghost use Rattle.lsn_space.specs.Opening.{IsSnapshot};
ghost use Rattle.lock_core.specs.Records.{txn_of, ends};
ghost use Rattle.lock_core.specs.Transactions.{own_records_of, has_end, open_changes_of};
ghost use Rattle.lock_core.specs.Sums.{Opening, no_opening};
ghost use Rattle.lock_core.specs.AccountRows.{opening_of};
ghost use Rattle.lock_core.specs.KeptLedger.{IsOpenAt, IsEndFault, KeepsTransactions, KeepsLedger};
ghost use Rattle.lock_core.specs.Taking.{TakesEntry};

use crate::account_changes::apply_changes;
use crate::checks::{are_current, is_current, is_paired};
use crate::reason::{JudgeFault, Why};
use crate::transactions::Transactions;
use crate::update::{Change, MOST_UPDATES};
use arrayvec::ArrayVec;
use log_record::Rec;
use lsn_space::{Balances, Lsn, MOST_ACCOUNTS, NoMemory};
use std::alloc::Global;

/// What a judge keeps of a lawful list: the accounts, whether there are Genesis records alone, the transactions, and the greatest
/// number before the list.
#[derive(Drop)]
pub struct Ledger {
    pub accounts: Balances,
    is_opening: bool,
    txns: Transactions,
    least: u32,
}

/// The same accounts, with room for as many as a log may have.
fn copied(alloc: Global, accounts: &Balances) -> Result<Balances, NoMemory>
    requires few { length accounts.now.rows ≤ MOST_ACCOUNTS }
    ensures rows { IfOk result (λ copy. copy.rows ≡ accounts.now.rows) }
    ensures room { IfOk result (λ copy. copy.room ≡ MOST_ACCOUNTS) }
{
    let mut copy = Balances::make(alloc, MOST_ACCOUNTS)?;
    'accounts: for account in 0..accounts.count() {
        let (balance, mark) = accounts.at(account);
        copy.push(balance, mark);
    }
    Ok(copy)
}

impl Ledger {
    /// No record of a whole log.
    pub fn make(alloc: Global) -> Result<Ledger, NoMemory>
        ensures { IfOk result (λ ledger. KeepsLedger no_opening ledger []) }
    {
        let accounts = Balances::make(alloc, MOST_ACCOUNTS)?;
        let txns = Transactions::make(alloc)?;
        Ok(Ledger {
            accounts,
            is_opening: true,
            txns,
            least: 0,
        })
    }

    /// No record behind this opening.
    pub fn after(alloc: Global, opening: &lsn_space::Opening) -> Result<Ledger, NoMemory>
        requires { (opening.now.accounts ≡ []) ⊎ IsSnapshot opening.now }
        ensures { IfOk result (λ ledger. KeepsLedger (opening_of opening.now) ledger []) }
    {
        let accounts = copied(alloc, &opening.accounts)?;
        let is_opening = accounts.count() == 0;
        let txns = Transactions::make(alloc)?;
        Ok(Ledger {
            accounts,
            is_opening,
            txns,
            least: opening.txn,
        })
    }

    /// Whether the number is above the opening's.
    fn is_behind(&self, txn: u32) -> bool
        ensures { IsTrue result ↔ (self.now.least < txn) }
    {
        txn > self.least
    }

    /// The place of the newest Update of a transaction, or `None` where its number isn't above the opening's, or it is ended.
    fn place(&self, txn: u32) -> Option<u32>
        requires kept { (opening : Opening) × (h : List Placed) × KeepsLedger opening self.now h }
        ensures ended { IfNone result ((opening : Opening) (h : List Placed) → KeepsLedger opening self.now h → opening.txn < txn
            → has_end (own_records_of txn h) ≡ false → ⊥) }
        ensures above { IfSome result (λ place. self.now.least < txn) }
        ensures unended { IfSome result (λ place. (h : List Placed) → KeepsTransactions self.now.txns h
            → IsOpenAt self.now.txns.updates place (own_records_of txn h)) }
        ensures inside { IfSome result (λ place. place < length self.now.txns.updates) }
    {
        if !self.is_behind(txn) {
            return None;
        }
        self.txns.place(txn)
    }

    /// Takes the record that starts at `lsn`.
    pub fn take(&mut self, lsn: Lsn, rec: &Rec) -> Result<(), JudgeFault>
        requires kept { (opening : Opening) × (h : List Placed) × KeepsLedger opening self.old h }
        requires spellable { IsSpellable rec.now }
        requires fits { lsn + length (spelling rec.now) ≤ LAST }
        ensures { TakesEntry self.old self.new (lsn + length (spelling rec.now)) rec.now result }
    {
        match rec {
            Rec::Genesis { account, balance } => self.take_genesis(*account, *balance),
            Rec::Update {
                txn,
                account,
                delta,
                prev,
            } => {
                let change = Change {
                    account: *account,
                    delta: *delta,
                    prev: *prev,
                };
                self.take_update(*txn, change)
            }
            Rec::Commit { txn, legs } => self.take_commit_alone(*txn, *legs, lsn),
            Rec::Short { txn, leg } => self.take_refusal(*txn, *leg),
            Rec::Over { txn, leg } => self.take_refusal(*txn, *leg),
            Rec::Note { txn, .. } => self.take_note(*txn),
        }
    }

    fn take_genesis(&mut self, account: u32, balance: u64) -> Result<(), JudgeFault>
        requires kept { (opening : Opening) × (h : List Placed) × KeepsLedger opening self.old h }
        requires account { IsAccount account }
        requires balance { IsBalance balance }
        ensures { (end : ℕ) → TakesEntry self.old self.new end (Rec.Genesis account balance) result }
    {
        if !self.is_opening || account != self.accounts.count() {
            return Err(JudgeFault::Why(Why::Genesis));
        }
        self.accounts.push(balance, 0);
        Ok(())
    }

    fn take_update(&mut self, txn: u32, change: Change) -> Result<(), JudgeFault>
        requires kept { (opening : Opening) × (h : List Placed) × KeepsLedger opening self.old h }
        requires account { IsAccount change.account }
        ensures { (end : ℕ) → TakesEntry self.old self.new end (Rec.Update txn change.account change.delta change.prev) result }
    {
        let accounts = self.accounts.count();
        if accounts == 0 {
            return Err(JudgeFault::Why(Why::Genesis));
        }
        if change.account >= accounts {
            return Err(JudgeFault::Why(Why::Account));
        }
        let Some(place) = self.place(txn) else {
            return Err(JudgeFault::Why(Why::Ended));
        };
        let newest = self.txns.update(place);
        if newest.count >= MOST_UPDATES as u32 {
            return Err(JudgeFault::Why(Why::Legs));
        }
        if !is_paired(&[newest.change], &change) {
            return Err(JudgeFault::Why(Why::Pair));
        }
        if !is_current(&self.accounts, &change) {
            return Err(JudgeFault::Why(Why::Prev));
        }
        self.is_opening = false;
        match self.txns.push(txn, place, newest.count + 1, change) {
            Ok(()) => Ok(()),
            Err(NoMemory) => Err(JudgeFault::NoMemory),
        }
    }

    /// Takes the Commit that starts at `lsn`. Its list of changes is made here, as `take` would clear it for each record.
    fn take_commit_alone(&mut self, txn: u32, legs: u32, lsn: Lsn) -> Result<(), JudgeFault>
        requires kept { (opening : Opening) × (h : List Placed) × KeepsLedger opening self.old h }
        requires legs { IsLeg legs }
        requires fits { lsn < LAST }
        ensures { TakesEntry self.old self.new (lsn + 1) (Rec.Commit txn legs) result }
    {
        let mut changes = ArrayVec::new();
        let end = Lsn::new(lsn.units() + 1);
        self.take_commit(txn, legs, end, &mut changes)
    }

    /// Takes a Commit that ends here. What the Updates of its transaction say, newest first, is put into the list that is lent: what
    /// it held is lost.
    pub fn take_commit(
        &mut self,
        txn: u32,
        legs: u32,
        end: Lsn,
        changes: &mut ArrayVec<Change, MOST_UPDATES>,
    ) -> Result<(), JudgeFault>
        requires kept { (opening : Opening) × (h : List Placed) × KeepsLedger opening self.old h }
        requires legs { IsLeg legs }
        ensures taken { TakesEntry self.old self.new end (Rec.Commit txn legs) result }
        ensures changes { OnOk result ((opening : Opening) (h : List Placed) → KeepsLedger opening self.old h
            → changes.new.items ≡ open_changes_of txn h) }
    {
        if self.accounts.count() == 0 {
            return Err(JudgeFault::Why(Why::Genesis));
        }
        let place = self.end(txn)?;
        if self.txns.update(place).count != 2 * legs {
            return Err(JudgeFault::Why(Why::Legs));
        }
        self.txns.changes(place, changes);
        let changes = changes.as_slice();
        if !are_current(&self.accounts, changes) {
            return Err(JudgeFault::Why(Why::Stale));
        }
        if !apply_changes(&mut self.accounts, changes, end) {
            return Err(JudgeFault::Why(Why::Balance));
        }
        Ok(())
    }

    /// Takes a Short or an Over.
    fn take_refusal(&mut self, txn: u32, leg: u32) -> Result<(), JudgeFault>
        requires kept { (opening : Opening) × (h : List Placed) × KeepsLedger opening self.old h }
        requires leg { IsLeg leg }
        ensures short { (end : ℕ) → TakesEntry self.old self.new end (Rec.Short txn leg) result }
        ensures over { (end : ℕ) → TakesEntry self.old self.new end (Rec.Over txn leg) result }
    {
        if self.accounts.count() == 0 {
            return Err(JudgeFault::Why(Why::Genesis));
        }
        let place = self.end(txn)?;
        if self.txns.update(place).count != 2 * (leg - 1) {
            return Err(JudgeFault::Why(Why::Legs));
        }
        Ok(())
    }

    fn take_note(&mut self, txn: u32) -> Result<(), JudgeFault>
        requires kept { (opening : Opening) × (h : List Placed) × KeepsLedger opening self.old h }
        ensures { (end : ℕ) (text : List ℕ) → TakesEntry self.old self.new end (Rec.Note txn text) result }
    {
        if self.accounts.count() == 0 {
            return Err(JudgeFault::Why(Why::Genesis));
        }
        match self.place(txn) {
            Some(_) => {
                self.is_opening = false;
                Ok(())
            }
            None => Err(JudgeFault::Why(Why::Ended)),
        }
    }

    /// Ends a transaction, and answers the place of its newest Update. It is searched for once, so its end is put before the other tests
    /// are made: where one fails the ledger is spent.
    fn end(&mut self, txn: u32) -> Result<u32, JudgeFault>
        requires kept { (opening : Opening) × (h : List Placed) × KeepsLedger opening self.old h }
        ensures accounts { self.new.accounts ≡ self.old.accounts }
        ensures opening { self.new.is_opening ≡ false }
        ensures least { self.new.least ≡ self.old.least }
        ensures updates { self.new.txns.updates ≡ self.old.txns.updates }
        ensures above { OnOk result (self.old.least < txn) }
        ensures unended { IfOk result (λ place. (h : List Placed) → KeepsTransactions self.old.txns h
            → IsOpenAt self.new.txns.updates place (own_records_of txn h)) }
        ensures inside { IfOk result (λ place. place < length self.new.txns.updates) }
        ensures taken { OnOk result ((entry : Placed) (h : List Placed) → KeepsTransactions self.old.txns h → txn_of entry.rec ≡ txn
            → ends entry.rec ≡ true → KeepsTransactions self.new.txns (entry ∷ h)) }
        ensures fault { IfErr result (IsEndFault ((opening : Opening) (h : List Placed) → KeepsLedger opening self.old h → opening.txn < txn
            → has_end (own_records_of txn h) ≡ false → ⊥)) }
    {
        self.is_opening = false;
        if !self.is_behind(txn) {
            return Err(JudgeFault::Why(Why::Ended));
        }
        self.txns.end(txn)
    }
}
