//! The entries of one account.
ghost use Rattle.std.specs.Prelude.{◌≡◌, ◌<◌, ◌≤◌, ◌++◌, ◌∷◌, [], ℕ, length, slice_index_or, pos, ◌-ℤ◌, OnOk};
ghost use Rattle.std.specs.List.Sorted.{IsNonDecreasingBy};
ghost use Rattle.log_record.specs.Spelling.{IsBalance};
ghost use Rattle.lock_core.specs.declared.update.TheConstants.{MOST_UPDATES};
ghost use Rattle.ledger_view.specs.Entering.{LeadsOn};
ghost use Rattle.ledger_view.specs.Entries.{net_of};
ghost use Rattle.ledger_view.specs.Rows.{entry_of_row, entry_of_net};
ghost use Rattle.ledger_view.specs.ViewedAccounts.{last_balance, balance_to, AddUp};

use crate::net::{balance_before, net_of};
use crate::rows::{Row, Rows};
use lock_core::Change;
use lsn_space::{Lsn, NoMemory};
use std::alloc::Global;
use std::marker::Model;

/// What a Commit did to an account.
#[derive(Clone, Copy, Debug, PartialEq, Eq)]
pub struct Entry {
    /// Where the Commit ends.
    pub end: Lsn,

    /// The transaction that it commits.
    pub txn: u32,

    /// The sum of what the Updates of that transaction add to the account and, below 0, take from it.
    pub net: i64,

    /// The balance of the account behind the Commit.
    pub balance: u64,
}

/// What leads from one balance to another.
fn net_between(before: u64, after: u64) -> i64
    requires before { IsBalance before }
    requires after { IsBalance after }
    ensures { result ≡ pos after -ℤ pos before }
{
    after as i64 - before as i64
}

/// The entries of an account, in the order of their Commits, each of which adds its net to the balance before it. Contracts see the list
/// of them.
#[derive(Debug, Drop)]
pub struct Entries {
    /// The balance before the first entry, as soon as there is one.
    first: u64,
    rows: Rows,
}

impl Model for Entries {
    ghost use Rattle.std.specs.Prelude.{List};
    ghost use Rattle.log_record.specs.Spelling.{IsBalance};
    ghost use Rattle.ledger_view.specs.declared.entries.Entry.{Entry};
    ghost use Rattle.ledger_view.specs.Rows.{entries_of_rows};

    ghost Value = { List Entry };

    ghost view = { λ entries. entries_of_rows entries.first entries.rows };

    ghost invariant = { λ entries. IsBalance entries.first };
}

impl Entries {
    /// No entry.
    pub(crate) fn new(alloc: Global) -> Entries
        ensures { result ≡ [] }
    {
        Entries {
            first: 0,
            rows: Rows::new(alloc),
        }
    }

    /// Appends that of a Commit of these changes, which is kept as this row. Only for the first is the balance before it computed.
    pub(crate) fn enter(
        &mut self,
        account: u32,
        changes: &[Change],
        row: Row,
    ) -> Result<(), NoMemory>
        requires few { length changes.now ≤ MOST_UPDATES }
        requires leads { LeadsOn self.old (net_of account changes.now) row.balance }
        ensures { OnOk result (self.new ≡ self.old ++ entry_of_net row (net_of account changes.now) ∷ []) }
    {
        if self.count() > 0 {
            self.push(row)
        } else {
            let first = balance_before(row.balance, net_of(changes, account));
            self.push_first(first, row)
        }
    }

    /// Appends the first entry, before which the account has this balance.
    fn push_first(&mut self, first: u64, row: Row) -> Result<(), NoMemory>
        requires none { self.old ≡ [] }
        requires range { IsBalance first }
        ensures { OnOk result (self.new ≡ entry_of_row first row ∷ []) }
    {
        self.first = first;
        self.rows.push(row)
    }

    /// Appends an entry to those that there are.
    fn push(&mut self, row: Row) -> Result<(), NoMemory>
        requires { 0 < length self.old }
        ensures { OnOk result ((first : ℕ) → self.new ≡ self.old ++ entry_of_row (last_balance first self.old) row ∷ []) }
    {
        self.rows.push(row)
    }

    /// How many of the entries end at or below an LSN.
    fn count_to(&self, lsn: Lsn) -> usize
        requires { IsNonDecreasingBy (λ entry. entry.end) self.now }
        ensures bound { result ≤ length self.now }
        ensures below { (i : ℕ) (otherwise : Entry) → i < result → (slice_index_or self.now i otherwise).end ≤ lsn }
        ensures behind { (i : ℕ) (otherwise : Entry) → result ≤ i → i < length self.now → lsn < (slice_index_or self.now i otherwise).end }
    {
        self.rows.count_to(lsn)
    }

    /// The balance of the account before an entry.
    fn balance_before(&self, i: usize) -> u64
        requires { i < length self.now }
        ensures range { IsBalance result }
        ensures net { (otherwise : Entry) → (slice_index_or self.now i otherwise).net
            ≡ pos (slice_index_or self.now i otherwise).balance -ℤ pos result }
    {
        if i == 0 {
            return self.first;
        }
        self.rows.at(i - 1).balance
    }

    /// The balance that the entries lead to which end at or below an LSN, where all of them lead to this one.
    pub(crate) fn balance_to(&self, lsn: Lsn, last: u64) -> u64
        requires sums { (first : ℕ) × AddUp 0 first self.now × (last ≡ last_balance first self.now) }
        requires range { IsBalance last }
        ensures range { IsBalance result }
        ensures balance { (first : ℕ) → AddUp 0 first self.now → last ≡ last_balance first self.now
            → result ≡ balance_to first self.now lsn }
    {
        let next = self.count_to(lsn);
        if next < self.count() {
            self.balance_before(next)
        } else {
            last
        }
    }

    /// The balance before the first entry, where all of them lead to this one.
    pub(crate) fn first_balance(&self, last: u64) -> u64
        requires sums { (first : ℕ) × AddUp 0 first self.now × (last ≡ last_balance first self.now) }
        ensures { (first : ℕ) → AddUp 0 first self.now → last ≡ last_balance first self.now → result ≡ first }
    {
        if self.count() == 0 {
            last
        } else {
            self.balance_before(0)
        }
    }

    /// The number of entries.
    pub fn count(&self) -> usize
        ensures { result ≡ length self.now }
    {
        self.rows.count()
    }

    /// The entry at this place, from 0 on.
    pub fn at(&self, i: usize) -> Entry
        requires { i < length self.now }
        ensures { (otherwise : Entry) → result ≡ slice_index_or self.now i otherwise }
    {
        let row = self.rows.at(i);
        Entry {
            end: row.end,
            txn: row.txn,
            net: net_between(self.balance_before(i), row.balance),
            balance: row.balance,
        }
    }
}
