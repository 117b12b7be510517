//! A view beside the definitions' plain program: of the same lists they answer the same.

ghost use Rattle.std.specs.Prelude.{◌≡◌, ◌≤◌, ◌+◌, ◌⊎◌, [], length, reverse, IfSome};
ghost use Rattle.lsn_space.specs.declared.lsn.TheConstants.{LAST};
ghost use Rattle.lsn_space.specs.Opening.{IsSnapshot};
ghost use Rattle.lock_core.specs.AccountRows.{opening_of};
ghost use Rattle.ledger_view.specs.ViewedAccounts.{HasViewed};

use ledger_view::{Entries, Entry, View, balances_are_plain, entries_are_plain};
use log_record::{Placed, read};
use log_recovery::taken;
use lsn_space::{Lsn, Opening};
use std::alloc::Global;

/// A view that was given the records which the units spell, and those records as entries, in the order of the log.
fn viewed(alloc: Global, opening: &Opening, units: &[u64]) -> Option<(View, Vec<Placed>)>
    requires opening { (opening.now.accounts ≡ []) ⊎ IsSnapshot opening.now }
    requires fits { opening.now.lsn + length units.now ≤ LAST }
    ensures few { IfSome result (λ both. length both.1.items ≤ LAST) }
    ensures viewed { IfSome result (λ both. HasViewed (opening_of opening.now) both.0 (reverse both.1.items)) }
{
    let Ok(mut view) = View::make(alloc, opening) else {
        return None;
    };
    let mut entries = Vec::new(alloc);
    let mut rest = units;
    let mut lsn = opening.lsn;
    'records: while !rest.is_empty() {
        let Ok((rec, size)) = read(rest) else {
            return None;
        };
        let Ok(()) = view.add(lsn, &rec) else {
            return None;
        };
        rest = rest.split_at(size).1;
        lsn = Lsn::new(lsn.units() + size as u32);
        let Ok(()) = entries.push(Placed { end: lsn, rec }) else {
            return None;
        };
    }
    Some((view, entries))
}

/// Whether the entries of a view are these.
fn are_entries(viewed: &Entries, plain: &[Entry]) -> bool {
    if viewed.count() != plain.len() {
        return false;
    }
    'entries: for i in 0..plain.len() {
        if viewed.at(i) != plain[i] {
            return false;
        }
    }
    true
}

/// Whether both have the same entries of the account.
fn has_same_entries(
    alloc: Global,
    view: &View,
    opening: &Opening,
    entries: &[Placed],
    account: u32,
) -> bool
    requires few { length entries.now ≤ LAST }
    requires viewed { HasViewed (opening_of opening.now) view.now (reverse entries.now) }
{
    let Ok((viewed, plain)) = entries_are_plain(alloc, view, opening, entries, account) else {
        return false;
    };
    match (viewed, &plain) {
        (Some(viewed), Some(plain)) => are_entries(viewed, plain.as_slice()),
        (None, None) => true,
        _ => false,
    }
}

/// Whether both have the same balance of the account at each LSN up to this one.
fn has_same_balances(
    view: &View,
    opening: &Opening,
    entries: &[Placed],
    account: u32,
    last: Lsn,
) -> bool
    requires few { length entries.now ≤ LAST }
    requires viewed { HasViewed (opening_of opening.now) view.now (reverse entries.now) }
{
    for lsn in 0..=last.units() {
        let (viewed, plain) = balances_are_plain(view, opening, entries, account, Lsn::new(lsn));
        if viewed != plain {
            return false;
        }
    }
    true
}

/// Whether both answer the same of accounts 0 to 2 of the log that the bytes are.
pub fn is_same(alloc: Global, bytes: &[u8]) -> bool {
    let Ok(both) = taken::<View>(alloc, bytes) else {
        return false;
    };
    let listed = both.1;
    let opening = &listed.opening;
    let Some((view, entries)) = viewed(alloc, opening, listed.units.as_slice()) else {
        return false;
    };
    let entries = entries.as_slice();
    'accounts: for account in 0..3 {
        if !has_same_entries(alloc, &view, opening, entries, account)
            || !has_same_balances(&view, opening, entries, account, listed.tail.next)
        {
            return false;
        }
    }
    true
}
