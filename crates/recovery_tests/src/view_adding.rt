//! A view that is handed records one by one.

ghost use Rattle.std.specs.Prelude.{[], IfOk};
ghost use Rattle.lsn_space.specs.Opening.{no_opening};
ghost use Rattle.lock_core.specs.AccountRows.{opening_of};
ghost use Rattle.ledger_view.specs.ViewedAccounts.{HasViewed};

use crate::judging::is_refused_by_its_leg;
use ledger_view::View;
use lock_core::{JudgeFault, Why};
use log_record::Rec;
use lsn_space::{Lsn, NoMemory, Opening};
use std::alloc::Global;
use std::process::Abort;
use std::test::Fail;

/// A view that was given no record of a whole log.
fn view_of_nothing(alloc: Global) -> Result<View, NoMemory>
    ensures { IfOk result (λ view. HasViewed (opening_of no_opening) view []) }
{
    let opening = Opening::none(alloc)?;
    View::make(alloc, &opening)
}

/// The accounts of the test.
fn has_two_accounts(rt: &impl Abort, view: &View) {
    assert_eq!(rt; view.accounts(), 2);
}

/// A view takes two accounts, of balances 100 and 0, and refuses a Short whose leg says that there were two Updates.
#[test]
fn adds_and_refuses(rt: HostRuntime) -> Result<(), Fail> {
    let Ok(mut view) = view_of_nothing(rt.alloc()) else {
        return Err(Fail::new("no memory for a view"));
    };
    let first = Rec::Genesis {
        account: 0,
        balance: 100,
    };
    let second = Rec::Genesis {
        account: 1,
        balance: 0,
    };
    let Ok(()) = view.add(Lsn::new(0), &first) else {
        return Err(Fail::new("the first account is refused"));
    };
    let Ok(()) = view.add(Lsn::new(2), &second) else {
        return Err(Fail::new("the second account is refused"));
    };
    has_two_accounts(&rt, &view);
    let short = Rec::Short { txn: 1, leg: 2 };
    is_refused_by_its_leg(&rt, view.add(Lsn::new(4), &short));
    Ok(())
}
