//! The words of the accounts, as they are put before a table starts and read once it is closed.
ghost use Rattle.std.specs.Prelude.{◌≡◌, ◌≤◌, length};
ghost use Rattle.lsn_space.specs.declared.lsn.TheConstants.{LEAST_RING, GREATEST_RING, MOST_SLOTS};
ghost use Rattle.table_layout.specs.Layout.{word_count};
ghost use Rattle.lsn_space.specs.declared.opening.TheConstants.{MOST_ACCOUNTS};
ghost use Rattle.table_layout.specs.AccountWords.{PutsAccounts, ReadsRows};
ghost use Rattle.std.specs.Slots.{slots_len, slots_items, IsFull};

use crate::layout::{account_place, balance_place};
use lsn_space::Balances;
use slot_word::AccountWord;
use std::alloc::Global;

/// Puts the accounts' words, each free with its last commit, and beside it its balance, in a table whose ring has that length, and
/// which has so many slots.
pub fn put_accounts(words: &mut Vec<u64>, ring: u32, slots: u32, accounts: &Balances)
    requires ring { (LEAST_RING ≤ ring) × (ring ≤ GREATEST_RING) }
    requires slots { slots ≤ MOST_SLOTS }
    requires few { length accounts.now.rows ≤ MOST_ACCOUNTS }
    requires size { length words.old.items ≡ word_count ring slots (length accounts.now.rows) }
    ensures { PutsAccounts ring slots accounts.now.rows (length accounts.now.rows) words.old.items words.new.items }
{
    for account in 0..accounts.count() {
        let (balance, mark) = accounts.at(account);
        words[account_place(ring, slots, account)] = AccountWord::free(mark).pack();
        words[balance_place(ring, slots, account)] = balance;
    }
}

/// Reads the accounts from the words of a closed table whose ring has that length, and which has so many
/// slots.
pub fn read_rows(
    rows: &mut Balances,
    closed: &atomic_table::Closed<(), Global>,
    ring: u32,
    slots: u32,
)
    requires ring { ring ≤ GREATEST_RING }
    requires slots { slots ≤ MOST_SLOTS }
    requires few { length rows.old.rows ≤ MOST_ACCOUNTS }
    requires size { slots_len closed.now.words ≡ word_count ring slots (length rows.old.rows) }
    requires full { IsFull closed.now.words }
    ensures room { rows.new.room ≡ rows.old.room }
    ensures rows { ReadsRows ring slots (length rows.old.rows) (slots_items closed.now.words) rows.old.rows rows.new.rows }
{
    for account in 0..rows.count() {
        let word = AccountWord::unpack(closed.word(account_place(ring, slots, account)));
        let balance = closed.word(balance_place(ring, slots, account));
        rows.set(account, balance, word.mark());
    }
}
