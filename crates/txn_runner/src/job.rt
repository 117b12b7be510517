//! One transfer that was taken, from its first account to its last.
ghost use Rattle.std.specs.Prelude.{◌≡◌, true, IfOk, IfErr, OnOk, OnErr};
ghost use Rattle.txn_parts.specs.Desk.{IsAtWork, WorksOn, view_at, books_at, accounts_at};
ghost use Rattle.txn_parts.specs.Stops.{HasStopped, HasSeen};
ghost use Rattle.txn_runner.specs.Stages.{HasBegun, MayMakeTransfer, TakesAccounts, MayEndTransfer, Gives, LetsGo, IsRowOf, MakesTaken, IsCutEarly};

use arrayvec::ArrayVec;
use log_record::Units;
use lsn_space::Lsn;
use schedule_hook::{Gate, Place};
use std::sync::Wait;
use txn_jobs::{Cause, MOST_PARTIES, Row, list_accounts, unless_stopped};
use txn_making::{give_all, give_unchanged, insert_transfer, take_all};
use txn_parts::{Desk, Numbered, Relief, TakenAccount, TransferEnd, see_durable};

/// Makes the transfer that was taken, and answers its row. The lists are lent: what they hold is lost.
pub(crate) fn run_job<R: Wait, Q: Relief, G: Gate>(
    desk: &mut Desk<'_, R, Q, G>,
    stop: u64,
    numbered: &Numbered,
    accounts: &mut ArrayVec<u32, MOST_PARTIES>,
    holdings: &mut ArrayVec<TakenAccount, MOST_PARTIES>,
    units: &mut Units,
    wait: bool,
) -> Result<Row, Cause>
    requires work { IsAtWork Q.Relief desk.old }
    requires begun { HasBegun (accounts_at desk.old) numbered.now.number numbered.now.job (view_at desk.old) stop }
    ensures work { WorksOn Q.Relief desk.old desk.new }
    ensures made { MakesTaken numbered.now.number numbered.now.job wait result desk.old.seat.now desk.new.seat.now }
{
    take_accounts(desk, stop, numbered, accounts, holdings)?;
    make_transfer(desk, numbered, holdings, units, wait)
}

/// Takes the accounts of the transfer, unless the log had stopped when it was taken. After an Err none is held.
fn take_accounts<R: Wait, Q: Relief, G: Gate>(
    desk: &mut Desk<'_, R, Q, G>,
    stop: u64,
    numbered: &Numbered,
    accounts: &mut ArrayVec<u32, MOST_PARTIES>,
    holdings: &mut ArrayVec<TakenAccount, MOST_PARTIES>,
) -> Result<(), Cause>
    requires work { IsAtWork Q.Relief desk.old }
    requires begun { HasBegun (accounts_at desk.old) numbered.now.number numbered.now.job (view_at desk.old) stop }
    ensures work { WorksOn Q.Relief desk.old desk.new }
    ensures taken { OnOk result (TakesAccounts (accounts_at desk.new) numbered.now.number numbered.now.job holdings.new.items
        desk.old.seat.now desk.new.seat.now) }
    ensures let_go { OnErr result (LetsGo desk.old.seat.now desk.new.seat.now) }
    ensures cut { IfErr result (IsCutEarly numbered.now.number numbered.now.job (view_at desk.old) (view_at desk.new)) }
{
    unless_stopped(stop)?;
    desk.relief.begin();
    list_accounts(&numbered.job, accounts);
    take_all(desk, accounts.as_slice(), holdings)
}

/// Inserts the records of the transfer, whose accounts are held, and gives the accounts back.
fn make_transfer<R: Wait, Q: Relief, G: Gate>(
    desk: &mut Desk<'_, R, Q, G>,
    numbered: &Numbered,
    holdings: &mut ArrayVec<TakenAccount, MOST_PARTIES>,
    units: &mut Units,
    wait: bool,
) -> Result<Row, Cause>
    requires work { IsAtWork Q.Relief desk.old }
    requires may { MayMakeTransfer (accounts_at desk.old) numbered.now.number numbered.now.job holdings.old.items (books_at desk.old) }
    requires runs { (view_at desk.old).seen.stop ≡ 0 }
    ensures work { WorksOn Q.Relief desk.old desk.new }
    ensures made { MakesTaken numbered.now.number numbered.now.job wait result desk.old.seat.now desk.new.seat.now }
{
    match insert_transfer(desk, numbered, holdings, units) {
        Ok(ended) => end_transfer(desk, numbered.number, ended, holdings, wait),
        Err(cause) => {
            give_unchanged(desk.table, desk.seat, holdings);
            Err(cause)
        }
    }
}

/// Gives the accounts back behind the end record (`give_behind`), and answers the row.
fn end_transfer<R: Wait, Q: Relief, G: Gate>(
    desk: &mut Desk<'_, R, Q, G>,
    number: u32,
    ended: TransferEnd,
    holdings: &mut ArrayVec<TakenAccount, MOST_PARTIES>,
    wait: bool,
) -> Result<Row, Cause>
    requires work { IsAtWork Q.Relief desk.old }
    requires may { MayEndTransfer (accounts_at desk.old) ended holdings.old.items (books_at desk.old) }
    ensures work { WorksOn Q.Relief desk.old desk.new }
    ensures gives { Gives holdings.old.items desk.old desk.new }
    ensures row { IfOk result (IsRowOf number ended wait (view_at desk.new)) }
    ensures waits { OnErr result (wait ≡ true) }
    ensures stopped { IfErr result (HasStopped desk.new) }
{
    let seen = give_behind(desk, &ended, holdings, wait)?;
    desk.gate.at(desk.seat.worker(), Place::JobEnded);
    Ok(Row {
        txn: number,
        answer: ended.answer,
        end: ended.end,
        seen,
    })
}

/// Gives the accounts back behind the end record, where asked once it is durable or the log stopped; answers what was durable just before.
fn give_behind<R: Wait, Q: Relief, G>(
    desk: &mut Desk<'_, R, Q, G>,
    ended: &TransferEnd,
    holdings: &mut ArrayVec<TakenAccount, MOST_PARTIES>,
    wait: bool,
) -> Result<Lsn, Cause>
    requires work { IsAtWork Q.Relief desk.old }
    requires may { MayEndTransfer (accounts_at desk.old) ended.now holdings.old.items (books_at desk.old) }
    ensures work { WorksOn Q.Relief desk.old desk.new }
    ensures gives { Gives holdings.old.items desk.old desk.new }
    ensures seen { IfOk result (HasSeen ended.now.end wait (view_at desk.new)) }
    ensures waits { OnErr result (wait ≡ true) }
    ensures stopped { IfErr result (HasStopped desk.new) }
{
    let seen = see_durable(desk, ended.end, wait);
    let durable = wait && seen.is_ok();
    give_all(desk.table, desk.seat, holdings, ended.release(), durable);
    seen
}
