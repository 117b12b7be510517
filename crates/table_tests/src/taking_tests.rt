//! An account is taken, found held by another worker, and given back.
ghost use Rattle.std.specs.Prelude.{◌<◌};
ghost use Rattle.log_rule.specs.May.{IsAtRest, HasBegunNothing, Ascends};
ghost use Rattle.log_table.specs.Seats.{IsOf, view_of};

use crate::found::is_at;
use early_locks::{Held, give, try_take};
use log_table::{LogTable, Seat};
use slot_word::AccountWord;
use std::process::Abort;
use std::test::Fail;
use test_rig::{job_of, table_of, values_of, worker};

/// This worker finds account 0 held, both times by this word, and holds what it held.
pub(crate) fn finds_held(rt: &impl Abort, table: &LogTable, seat: &mut Seat, word: AccountWord)
    requires seat { IsOf table.now seat.old }
    requires accounts { 0 < table.now.accounts }
    requires rests { IsAtRest (view_of seat.old) }
    requires begins { HasBegunNothing (view_of seat.old) }
    requires ascends { Ascends 0 (view_of seat.old).books }
    ensures seat { IsOf table.now seat.new }
    ensures rests { IsAtRest (view_of seat.new) }
    ensures begins { HasBegunNothing (view_of seat.new) }
    ensures ascends { Ascends 0 (view_of seat.new).books }
{
    let Err(held) = values_of(table, seat, 0) else {
        panic!(rt; "the account was free");
    };
    let (loaded, found) = (word, word);
    assert_eq!(rt; held, Held { loaded, found });
}

/// This worker finds account 0 free, with this balance and this last commit.
pub(crate) fn finds_free(rt: &impl Abort, table: &LogTable, seat: &mut Seat, values: (u64, u32))
    requires seat { IsOf table.now seat.old }
    requires accounts { 0 < table.now.accounts }
    requires rests { IsAtRest (view_of seat.old) }
    requires begins { HasBegunNothing (view_of seat.old) }
    requires ascends { Ascends 0 (view_of seat.old).books }
    ensures seat { IsOf table.now seat.new }
{
    let found = values_of(table, seat, 0);
    assert_eq!(rt; found, Ok(values));
}

#[test]
fn an_account_is_held_until_it_is_given_back(rt: HostRuntime) -> Result<(), Fail> {
    let (table, mut flusher_seat) = table_of(rt.alloc(), (100, 0), 4)?;
    let mut one = worker(&table, &mut flusher_seat, 0, 1);
    let mut two = worker(&table, &mut flusher_seat, 1, 2);
    table.take_job(&mut one, 1, &job_of(30));
    table.take_job(&mut two, 2, &job_of(30));
    let Ok(taken) = try_take(&table, &mut one, 0) else {
        return Err(Fail::new("the account was held"));
    };
    assert_eq!(rt; (taken.account, taken.balance, taken.mark), (0, 100, 0));
    finds_held(&rt, &table, &mut two, AccountWord::taken(0));
    let (balance, mark) = (taken.balance, taken.mark);
    give(&table, &mut one, taken, balance, mark);
    finds_free(&rt, &table, &mut two, (100, 0));
    is_at(&rt, "tail", table.load_tail(&mut two), 4);
    Ok(())
}
