//! The definitions' plain program: it looks through the whole list, behind an opening, for each answer.
ghost use Rattle.std.specs.Prelude.{◌≡◌, ◌==◌, ◌&&◌, ◌<◌, ◌≤◌, ◌+◌, ◌*◌, pos, neg_ℤ, ◌≤ℤ◌, if◌then◌else◌, length, take, reverse, slice_index_or, IfOk};
ghost use Rattle.lsn_space.specs.declared.lsn.TheConstants.{LAST};
ghost use Rattle.log_record.specs.declared.rec.Placed.{Placed};
ghost use Rattle.log_record.specs.Spelling.{IsBalance};
ghost use Rattle.lock_core.specs.Records.{txn_of, commits, gain, loss, changes_of};
ghost use Rattle.lock_core.specs.Transactions.{touches, is_committed};
ghost use Rattle.lock_core.specs.Sums.{BaseState, moved, total};
ghost use Rattle.lock_core.specs.Lawful.{base_with, with_genesis};
ghost use Rattle.lock_core.specs.AccountRows.{opening_of};
ghost use Rattle.ledger_view.specs.Entries.{net_of, front_to, balance_after, balance_up_to, entries_if_known};
ghost use Rattle.ledger_view.specs.Plain.{own_changes, IsNetOf, IsEntryOf, FrontsBeginInRange};

use crate::entries::Entry;
use crate::plain_list::EntryList;
use log_record::{Placed, Rec};
use lsn_space::{Lsn, NoMemory, Opening};
use std::alloc::Global;

/// What the record does to the account, if it is an Update of this transaction.
fn own_delta(rec: &Rec, txn: u32, account: u32) -> i64
    ensures value { result ≡ net_of account (own_changes txn rec.now) }
    ensures least { neg_ℤ (pos 2147483648) ≤ℤ result }
    ensures most { result ≤ℤ pos 2147483648 }
{
    match rec {
        Rec::Update {
            txn: own,
            account: on,
            delta,
            ..
        } if *own == txn && *on == account => i64::from(*delta),
        _ => 0,
    }
}

/// Whether the record is an Update of the account in this transaction.
fn is_own(rec: &Rec, txn: u32, account: u32) -> bool
    ensures { result ≡ touches account (own_changes txn rec.now) }
{
    match rec {
        Rec::Update {
            txn: own,
            account: on,
            ..
        } => *own == txn && *on == account,
        _ => false,
    }
}

/// The net of a transaction on an account, if one of its Updates is of it.
fn plain_net(entries: &[Placed], txn: u32, account: u32) -> Option<i64>
    requires { length entries.now ≤ LAST }
    ensures { IsNetOf (reverse entries.now) txn account result }
{
    let mut net: i64 = 0;
    let mut is_there = false;
    for entry in entries {
        net += own_delta(&entry.rec, txn, account);
        is_there = is_own(&entry.rec, txn, account) || is_there;
    }
    if is_there { Some(net) } else { None }
}

/// Whether the record is the Commit of this transaction.
fn is_commit_of(rec: &Rec, txn: u32) -> bool
    ensures { result ≡ (commits rec.now && (txn_of rec.now == txn)) }
{
    match rec {
        Rec::Commit { txn: own, .. } => *own == txn,
        _ => false,
    }
}

/// Whether the list commits the transaction.
fn is_committed(entries: &[Placed], txn: u32) -> bool
    ensures { result ≡ is_committed txn (reverse entries.now) }
{
    let mut is_there = false;
    for entry in entries {
        is_there = is_commit_of(&entry.rec, txn) || is_there;
    }
    is_there
}

/// What the record adds to the account and what it takes from it, if the list commits its transaction.
fn committed_move(entries: &[Placed], rec: &Rec, account: u32) -> (u64, u64)
    ensures gain { result.0 ≡ (if is_committed (txn_of rec.now) (reverse entries.now) then moved gain account (changes_of rec.now) else 0) }
    ensures loss { result.1 ≡ (if is_committed (txn_of rec.now) (reverse entries.now) then moved loss account (changes_of rec.now) else 0) }
    ensures most { (result.0 ≤ 2147483648) × (result.1 ≤ 2147483648) }
{
    match rec {
        Rec::Update {
            txn,
            account: on,
            delta,
            ..
        } if *on == account && is_committed(entries, *txn) => {
            let size = u64::from(delta.unsigned_abs());
            if *delta < 0 { (0, size) } else { (size, 0) }
        }
        _ => (0, 0),
    }
}

/// What the committed transactions of the list add to the account, and what they take from it.
fn totals(entries: &[Placed], account: u32) -> (u64, u64)
    requires { length entries.now ≤ LAST }
    ensures gain { result.0 ≡ total gain account (reverse entries.now) }
    ensures loss { result.1 ≡ total loss account (reverse entries.now) }
    ensures most { result.0 ≤ 2147483648 * length entries.now }
{
    let mut added: u64 = 0;
    let mut taken: u64 = 0;
    for entry in entries {
        let (more, less) = committed_move(entries, &entry.rec, account);
        added += more;
        taken += less;
    }
    (added, taken)
}

/// How many accounts the record opens.
fn opened_accounts(rec: &Rec) -> u64
    ensures count { (base : BaseState) → (with_genesis rec.now base).accounts ≡ base.accounts + result }
    ensures most { result ≤ 1 }
{
    match rec {
        Rec::Genesis { .. } => 1,
        _ => 0,
    }
}

/// How many accounts the opening and the list have.
fn account_count(opening: &Opening, entries: &[Placed]) -> u64
    requires { length entries.now ≤ LAST }
    ensures { result ≡ (base_with (opening_of opening.now) (reverse entries.now)).accounts }
{
    let mut count = u64::from(opening.accounts.count());
    for entry in entries {
        count += opened_accounts(&entry.rec);
    }
    count
}

/// The balance that the opening gives the account, 0 where it hasn't the account.
fn opening_balance(opening: &Opening, account: u32) -> u64
    ensures { result ≡ (opening_of opening.now).state.balance account }
{
    if account < opening.accounts.count() {
        opening.accounts.at(account).0
    } else {
        0
    }
}

/// The balance with which the account begins: that of the record, if it is the account's Genesis, and else the one that it had before.
fn begun_with(rec: &Rec, account: u32, before: u64) -> u64
    ensures { (base : BaseState) → base.balance account ≡ before → (with_genesis rec.now base).balance account ≡ result }
{
    match rec {
        Rec::Genesis {
            account: own,
            balance,
        } if account == *own => *balance,
        _ => before,
    }
}

/// The balance with which the account begins: that of its Genesis, or the opening's.
fn first_balance(opening: &Opening, entries: &[Placed], account: u32) -> u64
    ensures { result ≡ (base_with (opening_of opening.now) (reverse entries.now)).balance account }
{
    let mut balance = opening_balance(opening, account);
    for entry in entries {
        balance = begun_with(&entry.rec, account, balance);
    }
    balance
}

/// The balance that the list leaves the account, which begins with one in its range.
fn plain_balance(opening: &Opening, entries: &[Placed], account: u32) -> u64
    requires few { length entries.now ≤ LAST }
    requires range { IsBalance ((base_with (opening_of opening.now) (reverse entries.now)).balance account) }
    ensures { result ≡ balance_after (opening_of opening.now) (reverse entries.now) account }
{
    let first = first_balance(opening, entries, account);
    let (added, taken) = totals(entries, account);
    (first + added).saturating_sub(taken)
}

/// How many entries there are up to the last that ends at or below an LSN.
fn front_len(entries: &[Placed], lsn: Lsn) -> usize
    ensures count { result ≤ length entries.now }
    ensures front { front_to (reverse entries.now) lsn ≡ reverse (take result entries.now) }
{
    let mut len = 0;
    for (i, entry) in entries.iter().enumerate() {
        if entry.end.units() <= lsn.units() {
            len = i + 1;
        }
    }
    len
}

/// What a view answers as `balance_at` behind an opening and these records, given as entries in the order of the log, where the account
/// begins with a balance in its range, as in a lawful list. It takes time in proportion to the square of their number.
pub fn plain_balance_at(
    opening: &Opening,
    entries: &[Placed],
    account: u32,
    lsn: Lsn,
) -> Option<u64>
    requires few { length entries.now ≤ LAST }
    requires range { FrontsBeginInRange (opening_of opening.now) (reverse entries.now) account }
    ensures { result ≡ balance_up_to (opening_of opening.now) (reverse entries.now) account lsn }
{
    let front = &entries[..front_len(entries, lsn)];
    if u64::from(account) < account_count(opening, front) {
        Some(plain_balance(opening, front, account))
    } else {
        None
    }
}

/// The entry that the `i`th entry of the log makes for the account, if it makes one.
fn plain_entry(opening: &Opening, entries: &[Placed], i: usize, account: u32) -> Option<Entry>
    requires few { length entries.now ≤ LAST }
    requires inside { i < length entries.now }
    requires range { FrontsBeginInRange (opening_of opening.now) (reverse entries.now) account }
    ensures { (entry : Placed) → entry ≡ slice_index_or entries.now i entry
        → IsEntryOf (opening_of opening.now) entry (reverse (take i entries.now)) account result }
{
    let Rec::Commit { txn, .. } = &entries[i].rec else {
        return None;
    };
    let net = plain_net(&entries[..i], *txn, account)?;
    Some(Entry {
        end: entries[i].end,
        txn: *txn,
        net,
        balance: plain_balance(opening, &entries[..=i], account),
    })
}

/// What a view answers as `entries` behind an opening and these records, given as entries in the order of the log, where the account
/// begins with a balance in its range, as in a lawful list. It takes time in proportion to the third power of their number.
pub fn plain_entries(
    alloc: Global,
    opening: &Opening,
    entries: &[Placed],
    account: u32,
) -> Result<Option<EntryList>, NoMemory>
    requires few { length entries.now ≤ LAST }
    requires range { FrontsBeginInRange (opening_of opening.now) (reverse entries.now) account }
    ensures { IfOk result (λ found. found ≡ entries_if_known (opening_of opening.now) (reverse entries.now) account) }
{
    if u64::from(account) >= account_count(opening, entries) {
        return Ok(None);
    }
    let mut found = EntryList::new(alloc);
    'entries: for i in 0..entries.len() {
        let Some(entry) = plain_entry(opening, entries, i, account) else {
            continue;
        };
        found.push(entry)?;
    }
    Ok(Some(found))
}
