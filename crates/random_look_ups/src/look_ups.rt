//! Look-ups in a view.
ghost use Rattle.std.specs.Prelude.{List};
ghost use Rattle.log_record.specs.declared.rec.Placed.{Placed};
ghost use Rattle.lock_core.specs.Sums.{Opening};
ghost use Rattle.ledger_view.specs.ViewedAccounts.{HasViewed};

use crate::lot::Lot;
use ledger_view::View;
use lsn_space::Lsn;

/// What look-ups found.
#[derive(Drop)]
pub struct Found {
    /// The sum of the balances.
    pub sum: u128,

    /// How often there was no such account at that LSN.
    pub unknown: u32,
}

/// Looks up so many balances, of accounts of the view at LSNs up to this one.
pub fn look_ups(view: &View, end: Lsn, count: u32) -> Found
    requires viewed { (opening : Opening) × (h : List Placed) × HasViewed opening view.now h }
{
    let mut lot = Lot::new();
    let mut found = Found { sum: 0, unknown: 0 };
    let accounts = u64::from(view.accounts()).max(1);
    'look_ups: for _ in 0..count {
        let account = lot.draw(accounts) as u32;
        let lsn = Lsn::new(lot.draw(u64::from(end.units()) + 1) as u32);
        match view.balance_at(account, lsn) {
            Some(balance) => found.sum += balance as u128,
            None => found.unknown += 1,
        }
    }
    found
}
