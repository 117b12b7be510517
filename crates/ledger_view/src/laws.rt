//! Laws. The functions of the first two do nothing; the other two call the view and the plain program.

ghost use Rattle.std.specs.Prelude.{◌≡◌, ◌≤◌, ◌-◌, [], ℕ, List, Some, None, length, reverse, IfOk, MatchOption};
ghost use Rattle.lsn_space.specs.declared.lsn.TheConstants.{LAST};
ghost use Rattle.log_record.specs.declared.rec.Rec.{Rec};
ghost use Rattle.log_record.specs.LogList.{prefix_to};
ghost use Rattle.lock_core.specs.History.{history_from};
ghost use Rattle.lock_core.specs.AccountRows.{opening_of};
ghost use Rattle.ledger_view.specs.Entries.{front_to, balance_up_to, entries_if_known};
ghost use Rattle.ledger_view.specs.ViewedAccounts.{HasViewed};
ghost use Rattle.ledger_view.specs.declared.rows.TheConstants.{MARKED};

use crate::entries::Entries;
use crate::plain::{plain_balance_at, plain_entries};
use crate::plain_list::EntryList;
use crate::view::View;
use log_record::Placed;
use lsn_space::{Lsn, NoMemory, Opening};
use std::alloc::Global;

/// A law: from one mark to the next it is 16 rows.
pub fn fixed_numbers()
    ensures { MARKED ≡ 16 }
{}

/// A law: the history up to an LSN is that of the records of the list which end at or below it.
pub fn fronts_are_prefixes()
    ensures { (start lsn : ℕ) (records : List Rec) → start ≤ lsn
        → front_to (history_from start [] records) lsn ≡ history_from start [] (prefix_to records (lsn - start)) }
{}

/// A law: of each list that a view was given, the view answers at each account and LSN the balance that the plain program answers. The
/// records are given as entries in the order of the log. As each has a unit there are at most as many as LSNs.
pub fn balances_are_plain(
    view: &View,
    opening: &Opening,
    entries: &[Placed],
    account: u32,
    lsn: Lsn,
) -> (Option<u64>, Option<u64>)
    requires few { length entries.now ≤ LAST }
    requires viewed { HasViewed (opening_of opening.now) view.now (reverse entries.now) }
    ensures same { result.0 ≡ result.1 }
    ensures is { result.0 ≡ balance_up_to (opening_of opening.now) (reverse entries.now) account lsn }
{
    let viewed = view.balance_at(account, lsn);
    let plain = plain_balance_at(opening, entries, account, lsn);
    (viewed, plain)
}

/// A law: of each list that a view was given, the view answers for each account the entries that the plain program answers, and none
/// where it answers none.
pub fn entries_are_plain<'a>(
    alloc: Global,
    view: &'a View,
    opening: &Opening,
    entries: &[Placed],
    account: u32,
) -> Result<(Option<&'a Entries>, Option<EntryList>), NoMemory>
    requires few { length entries.now ≤ LAST }
    requires viewed { HasViewed (opening_of opening.now) view.now (reverse entries.now) }
    ensures same { IfOk result (λ both. MatchOption both.0 (both.1 ≡ None) (λ found. both.1 ≡ Some found.now)) }
    ensures are { IfOk result (λ both. both.1 ≡ entries_if_known (opening_of opening.now) (reverse entries.now) account) }
{
    let viewed = view.entries(account);
    let plain = plain_entries(alloc, opening, entries, account)?;
    Ok((viewed, plain))
}
