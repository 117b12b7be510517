//! An account between the two steps by which it is taken, and between the two by which it is given back: another worker finds it held.
ghost use Rattle.std.specs.Prelude.{◌≡◌, ◌<◌, [], IfSome};
ghost use Rattle.log_record.specs.Spelling.{IsSpellable};
ghost use Rattle.log_rule.specs.declared.view.Half.TheVariants.{Neither, Taking};
ghost use Rattle.log_rule.specs.May.{IsAtRest, HasBegunNothing, Ascends};
ghost use Rattle.log_rule.specs.Books.{HoldsAccounts, IsNext, placing};
ghost use Rattle.log_table.specs.Seats.{IsOf, view_of};
ghost use Rattle.test_rig.specs.NotedJobs.{IsNew};
ghost use Rattle.table_tests.specs.Payer.{HasBooks, HasHalfGiven, HasPaid, both_accounts, payer_books};

use crate::found::is_number;
use crate::taking_tests::{finds_free, finds_held};
use early_locks::try_take;
use log_record::{Rec, spell};
use log_table::{LogTable, Seat};
use lsn_space::{Lsn, MOST_BALANCE};
use ring_buffer::insert_alone;
use schedule_hook::OpenGate;
use slot_word::AccountWord;
use std::process::Abort;
use std::test::Fail;
use test_rig::{job_of, table_of, worker};

/// The worker takes the payment of 30 from account 0 to account 1, under number 1.
fn takes_payment(table: &LogTable, seat: &mut Seat)
    requires unused { IsNew table.now seat.old }
    requires accounts { table.now.accounts ≡ 2 }
    ensures { HasBooks table.now (payer_books [] [] Neither) seat.new }
{
    table.take_job(seat, 1, &job_of(30));
}

/// It takes the word of account 0, if that is free with no commit, and not yet its balance.
fn takes_word(table: &LogTable, seat: &mut Seat) -> Option<()>
    requires books { HasBooks table.now (payer_books [] [] Neither) seat.old }
    requires accounts { table.now.accounts ≡ 2 }
    ensures { IfSome result (λ done. HasBooks table.now (payer_books [] [] (Taking 0 0)) seat.new) }
{
    let (free, taken) = (AccountWord::free(0), AccountWord::taken(0));
    match table.exchange_account(seat, 0, free, taken) {
        Ok(()) => Some(()),
        Err(_) => None,
    }
}

/// It loads the balance of account 0, and takes account 1. None: they have other values than at first.
fn takes_both(table: &LogTable, seat: &mut Seat) -> Option<()>
    requires books { HasBooks table.now (payer_books [] [] (Taking 0 0)) seat.old }
    requires accounts { table.now.accounts ≡ 2 }
    ensures { IfSome result (λ done. HasBooks table.now (payer_books [] both_accounts Neither) seat.new) }
{
    let balance = table.load_balance(seat, 0);
    if balance != MOST_BALANCE {
        return None;
    }
    let Ok(taken) = try_take(table, seat, 1) else {
        return None;
    };
    if taken.balance != 0 {
        return None;
    }
    if taken.mark != 0 {
        return None;
    }
    Some(())
}

/// It inserts this record, the next of its payment, and answers where that ends.
fn inserts(table: &LogTable, seat: &mut Seat, rec: &Rec) -> Option<u32>
    requires books { HasBooks table.now (view_of seat.old).books seat.old }
    requires no_slots { table.now.slots ≡ 0 }
    requires whole { (view_of seat.old).books.half ≡ Neither }
    requires number { (view_of seat.old).books.last.number ≡ 1 }
    requires next { IsNext rec.now (view_of seat.old).books }
    requires holds { HoldsAccounts (view_of seat.old).books }
    requires spellable { IsSpellable rec.now }
    ensures { IfSome result (λ end. HasBooks table.now (placing end rec.now (view_of seat.old).books) seat.new) }
{
    let units = spell(rec);
    match insert_alone(table, seat, &units, &OpenGate) {
        Ok(at) => Some(at.units() + units.as_slice().len() as u32),
        Err(_) => None,
    }
}

/// It inserts all records of its payment, and answers where the Commit ends.
fn pays(table: &LogTable, seat: &mut Seat) -> Option<u32>
    requires books { HasBooks table.now (payer_books [] both_accounts Neither) seat.old }
    requires no_slots { table.now.slots ≡ 0 }
    ensures { IfSome result (λ end. HasPaid table.now end seat.new) }
{
    let debit = Rec::Update {
        txn: 1,
        account: 0,
        delta: -30,
        prev: Lsn::new(0),
    };
    let credit = Rec::Update {
        txn: 1,
        account: 1,
        delta: 30,
        prev: Lsn::new(0),
    };
    let Some(_) = inserts(table, seat, &debit) else {
        return None;
    };
    let Some(_) = inserts(table, seat, &credit) else {
        return None;
    };
    inserts(table, seat, &Rec::Commit { txn: 1, legs: 1 })
}

/// It stores the balance with which account 0 goes back, and not yet its word.
fn stores_balance(table: &LogTable, seat: &mut Seat, _end: u32)
    requires paid { HasPaid table.now _end seat.old }
    requires accounts { table.now.accounts ≡ 2 }
    ensures { HasHalfGiven table.now _end seat.new }
{
    table.store_balance(seat, 0, MOST_BALANCE - 30);
}

/// It stores the word, which gives account 0 back.
fn stores_word(table: &LogTable, seat: &mut Seat, end: u32)
    requires stored { HasHalfGiven table.now end seat.old }
    requires accounts { table.now.accounts ≡ 2 }
{
    table.store_account(seat, 0, AccountWord::free(end));
}

/// The other worker loads this word of account 0.
fn loads(rt: &impl Abort, table: &LogTable, seat: &mut Seat, word: AccountWord)
    requires seat { IsOf table.now seat.old }
    requires accounts { 0 < table.now.accounts }
    requires rests { IsAtRest (view_of seat.old) }
    requires begins { HasBegunNothing (view_of seat.old) }
    requires ascends { Ascends 0 (view_of seat.old).books }
    ensures seat { IsOf table.now seat.new }
    ensures rests { IsAtRest (view_of seat.new) }
    ensures begins { HasBegunNothing (view_of seat.new) }
    ensures ascends { Ascends 0 (view_of seat.new).books }
{
    let found = table.load_account(seat, 0);
    assert_eq!(rt; found, word);
}

#[test]
fn an_account_is_held_between_two_steps(rt: HostRuntime) -> Result<(), Fail> {
    let (table, mut flusher_seat) = table_of(rt.alloc(), (MOST_BALANCE, 0), 4)?;
    let mut one = worker(&table, &mut flusher_seat, 0, 1);
    let mut two = worker(&table, &mut flusher_seat, 1, 2);
    takes_payment(&table, &mut one);
    table.take_job(&mut two, 2, &job_of(30));
    let Some(()) = takes_word(&table, &mut one) else {
        return Err(Fail::new("the account was held"));
    };
    loads(&rt, &table, &mut two, AccountWord::taken(0));
    finds_held(&rt, &table, &mut two, AccountWord::taken(0));
    let Some(()) = takes_both(&table, &mut one) else {
        return Err(Fail::new("the accounts are not as at first"));
    };
    let Some(end) = pays(&table, &mut one) else {
        return Err(Fail::new("there was no room"));
    };
    stores_balance(&table, &mut one, end);
    finds_held(&rt, &table, &mut two, AccountWord::taken(0));
    stores_word(&table, &mut one, end);
    is_number(&rt, "end", u64::from(end), 9);
    finds_free(&rt, &table, &mut two, (4611686018427387873, 9));
    Ok(())
}
