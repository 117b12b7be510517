//! What another worker finds of an account.
ghost use Rattle.std.specs.Prelude.{◌≡◌, ◌<◌, ℕ, OnErr};
ghost use Rattle.log_rule.specs.May.{IsAtRest, HasBegunNothing, Ascends};
ghost use Rattle.log_table.specs.Seats.{IsOf, view_of};

use early_locks::{Held, try_take};
use log_table::{LogTable, Seat};

/// The balance and the last commit of the account, as this worker takes it now, which may then take those above it. After an Err
/// it holds what it held.
pub fn values_of(table: &LogTable, seat: &mut Seat, account: u32) -> Result<(u64, u32), Held>
    requires seat { IsOf table.now seat.old }
    requires account { account < table.now.accounts }
    requires rests { IsAtRest (view_of seat.old) }
    requires begins { HasBegunNothing (view_of seat.old) }
    requires ascends { Ascends account (view_of seat.old).books }
    ensures seat { IsOf table.now seat.new }
    ensures rests { IsAtRest (view_of seat.new) }
    ensures begins { HasBegunNothing (view_of seat.new) }
    ensures ascends { (next : ℕ) → account < next → Ascends next (view_of seat.new).books }
    ensures kept { OnErr result ((view_of seat.new).books ≡ (view_of seat.old).books) }
{
    let taken = try_take(table, seat, account)?;
    Ok((taken.balance, taken.mark))
}
