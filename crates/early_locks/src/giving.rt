//! An account is given back.
ghost use Rattle.std.specs.Prelude.{◌<◌, ◌≤◌};
ghost use Rattle.lsn_space.specs.declared.opening.TheConstants.{MOST_BALANCE};
ghost use Rattle.log_rule.specs.May.{IsAtRest};
ghost use Rattle.log_table.specs.Seats.{IsOf, view_of};
ghost use Rattle.early_locks.specs.Locks.{HoldsTaken, GivesBack, HasGivenBack, HasSeenDurable};

use crate::taken::Taken;
use log_table::{LogTable, Seat};
use slot_word::AccountWord;

/// Gives the account back: where the seat's last job is committed, with the balance and last commit
/// that it made, else as it was taken. The commit need not be durable.
pub fn give(table: &LogTable, seat: &mut Seat, taken: Taken, balance: u64, mark: u32)
    requires seat { IsOf table.now seat.old }
    requires account { taken.account < table.now.accounts }
    requires rests { IsAtRest (view_of seat.old) }
    requires holds { HoldsTaken taken (view_of seat.old).books }
    requires balance { balance ≤ MOST_BALANCE }
    requires values { GivesBack taken balance mark seat.old }
    ensures { HasGivenBack taken balance seat.old seat.new }
{
    table.store_balance(seat, taken.account, balance);
    table.store_account(seat, taken.account, AccountWord::free(mark));
}

/// Gives the account back once the seat has seen that the end record of its last job is on the disk.
pub fn give_durable(table: &LogTable, seat: &mut Seat, taken: Taken, balance: u64, mark: u32)
    requires seat { IsOf table.now seat.old }
    requires account { taken.account < table.now.accounts }
    requires rests { IsAtRest (view_of seat.old) }
    requires holds { HoldsTaken taken (view_of seat.old).books }
    requires balance { balance ≤ MOST_BALANCE }
    requires values { GivesBack taken balance mark seat.old }
    requires durable { HasSeenDurable (view_of seat.old) }
    ensures { HasGivenBack taken balance seat.old seat.new }
{
    give(table, seat, taken, balance, mark);
}
