//! A transfer takes its accounts.
ghost use Rattle.std.specs.Prelude.{◌≡◌, ◌<◌, IfOk, IfErr, OnOk, OnErr};
ghost use Rattle.log_rule.specs.May.{HasBegunNothing, Ascends};
ghost use Rattle.txn_parts.specs.Desk.{IsAtWork, WorksOn, HasOnlyLooked, view_at, books_at, accounts_at};
ghost use Rattle.txn_parts.specs.Stops.{HasStopped};
ghost use Rattle.txn_making.specs.Holdings.{MayTakeAll, AreInOrder, TakesAll, TakesOne, KeepsGiven, KeepsBooks};

use crate::giving::give_unchanged;
use arrayvec::ArrayVec;
use early_locks::{Taken, try_take};
use schedule_hook::{Gate, Place};
use std::sync::Wait;
use txn_jobs::{Cause, MOST_PARTIES};
use txn_parts::{Desk, Relief, TakenAccount, listen_account, pause};

/// Takes the accounts, which ascend, one after another, each once no other worker holds it, into a list that the caller has, in place
/// of what that held. After an Err none is held. It is asked only where the log had not stopped when that was seen last, and an Ok
/// leaves it so.
pub fn take_all<R: Wait, Q: Relief, G: Gate>(
    desk: &mut Desk<'_, R, Q, G>,
    accounts: &[u32],
    holdings: &mut ArrayVec<TakenAccount, MOST_PARTIES>,
) -> Result<(), Cause>
    requires work { IsAtWork Q.Relief desk.old }
    requires may { MayTakeAll (view_at desk.old) }
    requires accounts { AreInOrder (accounts_at desk.old) accounts.now }
    ensures work { WorksOn Q.Relief desk.old desk.new }
    ensures taken { OnOk result (TakesAll accounts.now holdings.new.items desk.old.seat.now desk.new.seat.now) }
    ensures kept { OnErr result (KeepsBooks desk.old.seat.now desk.new.seat.now) }
    ensures given { OnErr result (KeepsGiven (view_at desk.old) (view_at desk.new)) }
    ensures stopped { IfErr result (HasStopped desk.new) }
{
    holdings.clear();
    'accounts: for account in accounts {
        match take_one(desk, *account) {
            Ok(taken) => {
                let balance = taken.balance;
                holdings.push(TakenAccount { taken, balance });
            }
            Err(cause) => {
                give_unchanged(desk.table, desk.seat, holdings);
                return Err(cause);
            }
        }
        desk.gate.at(desk.seat.worker(), Place::Locked);
    }
    Ok(())
}

/// Takes the account once no other worker holds it. Where workers wait for the disk they hold an account that long, and who waits for one
/// sleeps until it is given back.
#[inline(always)]
fn take_one<R: Wait, Q: Relief, G: Gate>(
    desk: &mut Desk<'_, R, Q, G>,
    account: u32,
) -> Result<Taken, Cause>
    requires work { IsAtWork Q.Relief desk.old }
    requires begins { HasBegunNothing (view_at desk.old) }
    requires ascends { Ascends account (books_at desk.old) }
    requires runs { (view_at desk.old).seen.stop ≡ 0 }
    requires known { account < accounts_at desk.old }
    ensures work { WorksOn Q.Relief desk.old desk.new }
    ensures taken { IfOk result (λ taken. TakesOne account taken desk.old.seat.now desk.new.seat.now) }
    ensures kept { OnErr result (HasOnlyLooked desk.old desk.new) }
    ensures runs { OnOk result ((view_at desk.new).seen.stop ≡ 0) }
    ensures stopped { IfErr result (HasStopped desk.new) }
{
    for _ in desk.rt.forever() {
        let key = listen_account(desk, account);
        if let Ok(taken) = try_take(desk.table, desk.seat, account) {
            return Ok(taken);
        }
        desk.gate.at(desk.seat.worker(), Place::Lost);
        pause(desk, key)?;
    }
    unreachable!()
}
