//! An account is taken.
ghost use Rattle.std.specs.Prelude.{◌<◌, IfOk, IfErr};
ghost use Rattle.log_rule.specs.May.{IsAtRest, HasBegunNothing, Ascends};
ghost use Rattle.log_table.specs.Seats.{IsOf, view_of};
ghost use Rattle.early_locks.specs.Locks.{HasTaken, HoldsTaken, WasHeld};

use log_table::{LogTable, Seat};
use slot_word::AccountWord;

/// An account that the seat which got this value holds, with its balance and the end of its last
/// commit as they were taken.
#[derive(Drop)]
pub struct Taken {
    pub account: u32,
    pub balance: u64,
    pub mark: u32,
}

/// Why an account was not taken: another worker held it when it was loaded, and the two words are
/// then the same, or its word had changed when it was exchanged.
#[derive(Clone, Copy, Debug, PartialEq, Eq)]
pub struct Held {
    pub loaded: AccountWord,
    pub found: AccountWord,
}

/// Takes the account, where no worker holds it. A worker takes its accounts in ascending order, so it holds neither this one nor
/// one above it.
#[inline(always)]
pub fn try_take(table: &LogTable, seat: &mut Seat, account: u32) -> Result<Taken, Held>
    requires seat { IsOf table.now seat.old }
    requires account { account < table.now.accounts }
    requires rests { IsAtRest (view_of seat.old) }
    requires begins { HasBegunNothing (view_of seat.old) }
    requires ascends { Ascends account (view_of seat.old).books }
    ensures taken { IfOk result (HasTaken seat.old seat.new account) }
    ensures holds { IfOk result (λ taken. HoldsTaken taken (view_of seat.new).books) }
    ensures held { IfErr result (WasHeld seat.old seat.new account) }
{
    let loaded = table.load_account(seat, account);
    if loaded.held() {
        return Err(Held {
            loaded,
            found: loaded,
        });
    }
    let mark = loaded.mark();
    if let Err(found) = table.exchange_account(seat, account, loaded, AccountWord::taken(mark)) {
        return Err(Held { loaded, found });
    }
    let balance = table.load_balance(seat, account);
    Ok(Taken {
        account,
        balance,
        mark,
    })
}
