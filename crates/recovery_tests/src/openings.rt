//! A judge behind the opening that a cut log leaves.

ghost use Rattle.std.specs.Prelude.{◌≡◌, ◌≤◌, ◌+◌, [], length, IfOk};
ghost use Rattle.lsn_space.specs.declared.lsn.TheConstants.{LAST};
ghost use Rattle.log_record.specs.Spelling.{IsSpellable, spelling};
ghost use Rattle.lock_core.specs.Taking.{HasJudged};
ghost use Rattle.lock_core.specs.Witness.{snapshot, cut};

use arrayvec::ArrayVec;
use lock_core::{Change, Judge, JudgeFault, Why};
use log_record::Rec;
use lsn_space::{Balances, Lsn, NoMemory, Opening};
use std::alloc::Global;
use std::process::Abort;
use std::test::Fail;

/// What the log of one transfer leaves: it ends at 9, transaction 1 was the last, and the accounts have 70 and 30, each by the
/// Commit that ends at 9.
fn kept(alloc: Global) -> Result<Opening, NoMemory>
    ensures { IfOk result (λ opening. opening ≡ snapshot) }
{
    let mut accounts = Balances::make(alloc, 2)?;
    accounts.push(70, 9);
    accounts.push(30, 9);
    Ok(Opening {
        lsn: Lsn::new(9),
        txn: 1,
        accounts,
    })
}

/// A judge that has taken no record behind it.
fn judge_behind(alloc: Global) -> Result<Judge, NoMemory>
    ensures { IfOk result (λ judge. HasJudged cut judge []) }
{
    let opening = kept(alloc)?;
    Judge::after(alloc, &opening)
}

/// The accounts and the greatest transaction number.
fn has(rt: &impl Abort, judge: &Judge, first: (u64, u32), second: (u64, u32), greatest: u32) {
    assert_eq!(rt; judge.accounts(), 2);
    assert_eq!(rt; (judge.balance(0), judge.last(0)), first);
    assert_eq!(rt; (judge.balance(1), judge.last(1)), second);
    assert_eq!(rt; judge.greatest_txn(), greatest);
}

/// These are the transfer's Updates, newest first.
fn are_its_updates(rt: &impl Abort, changes: &[Change]) -> Result<(), Fail> {
    let [giving, taking] = changes else {
        return Err(Fail::new("not two Updates"));
    };
    assert_eq!(rt; (giving.account, giving.delta), (0, 30));
    assert_eq!(rt; (taking.account, taking.delta), (1, -30));
    Ok(())
}

/// A judge behind the log that was cut refuses the record by this test.
fn is_refused(rt: &impl Abort, alloc: Global, rec: &Rec, why: Why) -> Result<(), Fail>
    requires spellable { IsSpellable rec.now }
    requires fits { 9 + length (spelling rec.now) ≤ LAST }
{
    let Ok(mut judge) = judge_behind(alloc) else {
        return Err(Fail::new("no memory for a judge"));
    };
    assert_eq!(rt; judge.take(Lsn::new(9), rec), Err(JudgeFault::Why(why)));
    Ok(())
}

/// 30 from account 1 to account 0 goes on behind the log that was cut.
#[test]
fn goes_on(rt: HostRuntime) -> Result<(), Fail> {
    let Ok(mut judge) = judge_behind(rt.alloc()) else {
        return Err(Fail::new("no memory for a judge"));
    };
    has(&rt, &judge, (70, 9), (30, 9), 1);
    let taking = Rec::Update {
        txn: 2,
        account: 1,
        delta: -30,
        prev: Lsn::new(9),
    };
    let giving = Rec::Update {
        txn: 2,
        account: 0,
        delta: 30,
        prev: Lsn::new(9),
    };
    let Ok(()) = judge.take(Lsn::new(9), &taking) else {
        return Err(Fail::new("the taking is refused"));
    };
    let Ok(()) = judge.take(Lsn::new(11), &giving) else {
        return Err(Fail::new("the giving is refused"));
    };
    let mut changes = ArrayVec::new();
    let Ok(()) = judge.take_commit(Lsn::new(13), 2, 1, &mut changes) else {
        return Err(Fail::new("the Commit is refused"));
    };
    has(&rt, &judge, (100, 14), (0, 14), 2);
    are_its_updates(&rt, changes.as_slice())
}

/// A transaction of the log that was cut is ended.
#[test]
fn refuses_an_old_transaction(rt: HostRuntime) -> Result<(), Fail> {
    let again = Rec::Update {
        txn: 1,
        account: 1,
        delta: -30,
        prev: Lsn::new(9),
    };
    is_refused(&rt, rt.alloc(), &again, Why::Ended)
}

/// No account is opened behind accounts.
#[test]
fn refuses_an_account(rt: HostRuntime) -> Result<(), Fail> {
    let third = Rec::Genesis {
        account: 2,
        balance: 7,
    };
    is_refused(&rt, rt.alloc(), &third, Why::Genesis)
}
