//! What is kept of each account.
ghost use Rattle.std.specs.Prelude.{◌≡◌, ◌<◌, ◌≤◌, ◌++◌, ◌∷◌, [], replicate, length, slice_set, IfOk, OnOk};
ghost use Rattle.lock_core.specs.declared.update.TheConstants.{MOST_UPDATES};
ghost use Rattle.ledger_view.specs.Entries.{net_of};
ghost use Rattle.ledger_view.specs.ViewedAccounts.{untouched, account_at};
ghost use Rattle.ledger_view.specs.Entering.{with_entry, LeadsOn};

use crate::entries::Entries;
use crate::rows::Row;
use lock_core::Change;
use lsn_space::{Lsn, NoMemory};
use std::alloc::Global;
use std::marker::Model;

/// What is kept of an account: its entries, and where its Genesis ends, 0 where it was there before the list.
#[derive(Debug, Drop)]
pub struct Account {
    pub since: Lsn,
    pub entries: Entries,
}

/// What is kept of each account, from account 0 on. Contracts see the list of them.
#[derive(Drop)]
pub struct Accounts {
    rows: Vec<Account>,
    alloc: Global,
}

impl Model for Accounts {
    ghost use Rattle.std.specs.Prelude.{List};
    ghost use Rattle.ledger_view.specs.declared.accounts.Account.{Account};

    ghost Value = { List Account };

    ghost view = { λ accounts. accounts.rows.items };
}

impl Accounts {
    /// So many accounts that were there before the list.
    pub fn make(alloc: Global, count: u32) -> Result<Accounts, NoMemory>
        ensures { IfOk result (λ accounts. accounts ≡ replicate count untouched) }
    {
        let mut accounts = Accounts {
            rows: Vec::new(alloc),
            alloc,
        };
        'accounts: for _ in 0..count {
            accounts.push(Lsn::new(0))?;
        }
        Ok(accounts)
    }

    /// Appends the next account, which is there from this LSN on.
    pub fn push(&mut self, since: Lsn) -> Result<(), NoMemory>
        ensures { OnOk result (self.new ≡ self.old ++ record { since = since; entries = [] } ∷ []) }
    {
        let account = Account {
            since,
            entries: Entries::new(self.alloc),
        };
        match self.rows.push(account) {
            Ok(()) => Ok(()),
            Err(_) => Err(NoMemory),
        }
    }

    /// Appends to the entries of an account that of a Commit of these changes, which is kept as this row.
    pub fn enter(&mut self, account: u32, changes: &[Change], row: Row) -> Result<(), NoMemory>
        requires known { account < length self.old }
        requires few { length changes.now ≤ MOST_UPDATES }
        requires leads { LeadsOn (account_at self.old account).entries (net_of account changes.now) row.balance }
        ensures { OnOk result (self.new ≡ slice_set self.old account (with_entry (account_at self.old account)
            (record { end = row.end; txn = row.txn; net = net_of account changes.now; balance = row.balance }))) }
    {
        self.rows[account as usize]
            .entries
            .enter(account, changes, row)
    }

    /// What is kept of the account.
    pub fn at(&self, account: u32) -> &Account
        requires { account < length self.now }
        ensures { result.now ≡ account_at self.now account }
    {
        &self.rows[account as usize]
    }

    /// The number of accounts.
    pub fn count(&self) -> usize
        ensures { result ≡ length self.now }
    {
        self.rows.len()
    }
}
