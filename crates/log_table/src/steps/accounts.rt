//! The accounts: who holds them, and with which balance and last commit.
ghost use Rattle.std.specs.Prelude.{◌≡◌, ◌<◌};
ghost use Rattle.log_rule.specs.May.{MayTake, MayLoadBalance, MayStoreBalance, MayGiveBack};
ghost use Rattle.log_table.specs.Seats.{IsOf, view_of};
ghost use Rattle.log_table.specs.Steps.{LoadsAccount, ExchangesAccount, LoadsBalance, StoresBalance, StoresAccount};

use crate::plays::{ExchangeAccount, LoadAccount, LoadBalance, Number, StoreAccount, StoreBalance};
use crate::table::{LogTable, Seat};
use slot_word::AccountWord;
use std::marker::Brand;
use table_layout::{account_place, balance_place};

/// The account's number, which a step can't see, comes by the type, here and below.
fn load_account_as<N: Number>(table: &LogTable, seat: &mut Seat, account: u32) -> AccountWord
    requires seat { IsOf table.now seat.old }
    requires account { account < table.now.accounts }
    requires named { N.number ≡ account }
    ensures { LoadsAccount table.now account seat.old seat.new result }
{
    let place = account_place(table.ring, table.slots, account);
    AccountWord::unpack(
        table
            .table
            .shared
            .load::<LoadAccount<N>>(&mut seat.base, place),
    )
}

fn exchange_account_as<N: Number>(
    table: &LogTable,
    seat: &mut Seat,
    account: u32,
    from: AccountWord,
    to: AccountWord,
) -> Result<(), AccountWord>
    requires seat { IsOf table.now seat.old }
    requires account { account < table.now.accounts }
    requires next { MayTake account from to (view_of seat.old) }
    requires named { N.number ≡ account }
    ensures { ExchangesAccount table.now account from to seat.old seat.new result }
{
    let place = account_place(table.ring, table.slots, account);
    let found = table
        .table
        .shared
        .compare_exchange::<ExchangeAccount<N>>(&mut seat.base, place, from.pack(), to.pack());
    if found == from.pack() {
        Ok(())
    } else {
        Err(AccountWord::unpack(found))
    }
}

fn store_balance_as<N: Number>(table: &LogTable, seat: &mut Seat, account: u32, balance: u64)
    requires seat { IsOf table.now seat.old }
    requires account { account < table.now.accounts }
    requires next { MayStoreBalance account balance (view_of seat.old) }
    requires named { N.number ≡ account }
    ensures { StoresBalance table.now account balance seat.old seat.new }
{
    let place = balance_place(table.ring, table.slots, account);
    table
        .table
        .shared
        .store::<StoreBalance<N>>(&mut seat.base, place, balance);
}

fn store_account_as<N: Number>(table: &LogTable, seat: &mut Seat, account: u32, word: AccountWord)
    requires seat { IsOf table.now seat.old }
    requires account { account < table.now.accounts }
    requires next { MayGiveBack account word (view_of seat.old) }
    requires named { N.number ≡ account }
    ensures { StoresAccount table.now account word seat.old seat.new }
{
    let place = account_place(table.ring, table.slots, account);
    table
        .table
        .shared
        .store::<StoreAccount<N>>(&mut seat.base, place, word.pack());
}

impl LogTable {
    pub fn load_account(&self, seat: &mut Seat, account: u32) -> AccountWord
        requires seat { IsOf self.now seat.old }
        requires account { account < self.now.accounts }
        ensures { LoadsAccount self.now account seat.old seat.new result }
    {
        load_account_as::<Brand>(self, seat, account)
    }

    /// Takes the account, where its word is still the free one that is given; an Err holds the word
    /// found. The account has to be above all that the seat holds.
    pub fn exchange_account(
        &self,
        seat: &mut Seat,
        account: u32,
        from: AccountWord,
        to: AccountWord,
    ) -> Result<(), AccountWord>
        requires seat { IsOf self.now seat.old }
        requires account { account < self.now.accounts }
        requires next { MayTake account from to (view_of seat.old) }
        ensures { ExchangesAccount self.now account from to seat.old seat.new result }
    {
        exchange_account_as::<Brand>(self, seat, account, from, to)
    }

    /// The balance of the account whose word the seat has just taken.
    pub fn load_balance(&self, seat: &mut Seat, account: u32) -> u64
        requires seat { IsOf self.now seat.old }
        requires account { account < self.now.accounts }
        requires next { MayLoadBalance account (view_of seat.old) }
        ensures { LoadsBalance self.now account seat.old seat.new result }
    {
        let place = balance_place(self.ring, self.slots, account);
        self.table.shared.load::<LoadBalance>(&mut seat.base, place)
    }

    /// Stores the balance with which the account goes back: the one that the seat's last job made,
    /// where it is committed, else the one as it was taken.
    pub fn store_balance(&self, seat: &mut Seat, account: u32, balance: u64)
        requires seat { IsOf self.now seat.old }
        requires account { account < self.now.accounts }
        requires next { MayStoreBalance account balance (view_of seat.old) }
        ensures { StoresBalance self.now account balance seat.old seat.new }
    {
        store_balance_as::<Brand>(self, seat, account, balance);
    }

    /// Gives the account back, whose balance is stored: with the last commit that the seat's last job
    /// made, where it is committed, else as it was taken. Who listens for it is woken.
    pub fn store_account(&self, seat: &mut Seat, account: u32, word: AccountWord)
        requires seat { IsOf self.now seat.old }
        requires account { account < self.now.accounts }
        requires next { MayGiveBack account word (view_of seat.old) }
        ensures { StoresAccount self.now account word seat.old seat.new }
    {
        store_account_as::<Brand>(self, seat, account, word);
        self.bells.ring_account(account);
    }
}
