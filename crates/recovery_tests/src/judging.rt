//! A judge, record by record.

use lock_core::{Judge, JudgeFault, Why};
use log_record::Rec;
use lsn_space::Lsn;
use std::process::Abort;
use std::test::Fail;

/// The accounts of the test, with no commit and no transaction.
fn has_two_accounts(rt: &impl Abort, judge: &Judge) {
    assert_eq!(rt; judge.accounts(), 2);
    let found = (judge.balance(0), judge.last(1), judge.greatest_txn());
    assert_eq!(rt; found, (100, 0, 0));
}

/// The record was refused by its leg.
pub(crate) fn is_refused_by_its_leg(rt: &impl Abort, found: Result<(), JudgeFault>) {
    assert_eq!(rt; found, Err(JudgeFault::Why(Why::Legs)));
}

/// A judge takes two accounts, of balances 100 and 0, and refuses a Short whose leg says that there were two Updates.
#[test]
fn takes_and_refuses(rt: HostRuntime) -> Result<(), Fail> {
    let Ok(mut judge) = Judge::make(rt.alloc()) else {
        return Err(Fail::new("no memory for a judge"));
    };
    let first = Rec::Genesis {
        account: 0,
        balance: 100,
    };
    let second = Rec::Genesis {
        account: 1,
        balance: 0,
    };
    let Ok(()) = judge.take(Lsn::new(0), &first) else {
        return Err(Fail::new("the first account is refused"));
    };
    let Ok(()) = judge.take(Lsn::new(2), &second) else {
        return Err(Fail::new("the second account is refused"));
    };
    has_two_accounts(&rt, &judge);
    let short = Rec::Short { txn: 1, leg: 2 };
    is_refused_by_its_leg(&rt, judge.take(Lsn::new(4), &short));
    Ok(())
}
