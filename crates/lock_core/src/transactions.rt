//! What a judge keeps of transactions.

ghost use Rattle.std.specs.Prelude.{◌≡◌, ◌<◌, ◌≤◌, ◌+◌, ◌∷◌, [], true, ℕ, List, length, IfSome, IfNone, IfOk, IfErr, OnOk};
ghost use Rattle.log_record.specs.declared.rec.Placed.{Placed};
ghost use Rattle.log_record.specs.Spelling.{IsAccount};
ghost use Rattle.lock_core.specs.declared.update.TheConstants.{MOST_UPDATES};
ghost use Rattle.lock_core.specs.Records.{txn_of, ends};
ghost use Rattle.lock_core.specs.Transactions.{own_records_of, updates_of, has_end};
ghost use Rattle.lock_core.specs.KeptLedger.{update_at, link_at, IsOpenAt, IsEndFault, KeepsTransactions};

use crate::reason::{JudgeFault, Why};
use crate::update::{Change, MOST_UPDATES};
use crate::update_links::{ENDED, UpdateLink, UpdateLinks};
use arrayvec::ArrayVec;
use lsn_space::NoMemory;
use std::alloc::Global;
use txn_tables::TxnTable;

/// What a judge keeps of transactions: of each the place of its newest Update, 0 where it has none, or `ENDED` where it has
/// its end record.
#[derive(Drop)]
pub struct Transactions {
    newest: TxnTable,
    updates: UpdateLinks,

    /// How many transactions have an Update and no end record.
    active: u32,
}

impl Transactions {
    /// No transaction has a record.
    pub fn make(alloc: Global) -> Result<Transactions, NoMemory>
        ensures { IfOk result (λ txns. KeepsTransactions txns []) }
    {
        let updates = UpdateLinks::make(alloc)?;
        Ok(Transactions {
            newest: TxnTable::new(alloc),
            updates,
            active: 0,
        })
    }

    /// The place of the newest Update of a transaction, or `None` where the transaction is ended.
    pub fn place(&self, txn: u32) -> Option<u32>
        requires kept { (h : List Placed) × KeepsTransactions self.now h }
        ensures ended { IfNone result ((h : List Placed) → KeepsTransactions self.now h → has_end (own_records_of txn h) ≡ true) }
        ensures unended { IfSome result (λ place. (h : List Placed) → KeepsTransactions self.now h
            → IsOpenAt self.now.updates place (own_records_of txn h)) }
        ensures inside { IfSome result (λ place. place < length self.now.updates) }
    {
        let place = self.newest.value(txn);
        if place == ENDED { None } else { Some(place) }
    }

    /// The Update at this place.
    pub fn update(&self, place: u32) -> UpdateLink
        requires { place < length self.now.updates }
        ensures { result ≡ link_at self.now.updates place }
    {
        self.updates.at(place)
    }

    /// What the Updates of a transaction say, newest first; the newest stands at this place. The list is lent: what it held is lost.
    pub fn changes(&self, place: u32, changes: &mut ArrayVec<Change, MOST_UPDATES>)
        requires { (txn : ℕ) × (h : List Placed) × IsOpenAt self.now.updates place (own_records_of txn h)
            × (length (updates_of txn h) ≤ MOST_UPDATES) }
        ensures { (txn : ℕ) (h : List Placed) → IsOpenAt self.now.updates place (own_records_of txn h)
            → changes.new.items ≡ updates_of txn h }
    {
        self.updates.chain(place, changes);
    }

    /// Takes an Update of a transaction, which has so many with it, and the one before it at this place. Where no transaction is active
    /// nobody needs the Updates that are kept, so their places are used again.
    pub fn push(&mut self, txn: u32, place: u32, count: u32, change: Change) -> Result<(), NoMemory>
        requires account { IsAccount change.account }
        requires count { count ≤ MOST_UPDATES }
        ensures { OnOk result ((end : ℕ) (h : List Placed) → KeepsTransactions self.old h
            → IsOpenAt self.old.updates place (own_records_of txn h) → count ≡ length (updates_of txn h) + 1
            → KeepsTransactions self.new (update_at end txn change ∷ h)) }
    {
        if self.active == 0 {
            self.updates.clear();
        }
        let link = UpdateLink {
            change,
            count,
            older: place,
        };
        let newest = self.updates.push(link)?;
        if place == 0 {
            self.active = self.active.saturating_add(1);
        }
        match self.newest.put(txn, newest) {
            Ok(_) => Ok(()),
            Err(NoMemory) => Err(NoMemory),
        }
    }

    /// Takes the end record of a transaction, and answers the place of its newest Update. One that is ended has no further end record.
    pub fn end(&mut self, txn: u32) -> Result<u32, JudgeFault>
        requires kept { (h : List Placed) × KeepsTransactions self.old h }
        ensures updates { self.new.updates ≡ self.old.updates }
        ensures unended { IfOk result (λ place. (h : List Placed) → KeepsTransactions self.old h
            → IsOpenAt self.new.updates place (own_records_of txn h)) }
        ensures inside { IfOk result (λ place. place < length self.new.updates) }
        ensures taken { OnOk result ((entry : Placed) (h : List Placed) → KeepsTransactions self.old h → txn_of entry.rec ≡ txn
            → ends entry.rec ≡ true → KeepsTransactions self.new (entry ∷ h)) }
        ensures fault { IfErr result (IsEndFault ((h : List Placed) → KeepsTransactions self.old h
            → has_end (own_records_of txn h) ≡ true)) }
    {
        let Ok(place) = self.newest.put(txn, ENDED) else {
            return Err(JudgeFault::NoMemory);
        };
        if place == ENDED {
            return Err(JudgeFault::Why(Why::Ended));
        }
        if place != 0 {
            self.active = self.active.saturating_sub(1);
        }
        Ok(place)
    }
}
