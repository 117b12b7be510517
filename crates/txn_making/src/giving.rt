//! A transfer gives its accounts back.
ghost use Rattle.std.specs.Prelude.{◌≡◌, ◌<◌, ◌≤◌, false, All};
ghost use Rattle.lsn_space.specs.declared.opening.TheConstants.{MOST_BALANCE};
ghost use Rattle.lock_core.specs.Transactions.{recs_of, has_commit};
ghost use Rattle.log_table.specs.Seats.{IsOf, view_of};
ghost use Rattle.ring_buffer.specs.Calls.{IsReady};
ghost use Rattle.early_locks.specs.Locks.{HoldsTaken, GivesBack, HasGivenBack};
ghost use Rattle.txn_making.specs.Holdings.{HoldsKnown, GoesBack, MayGiveAs, ReturnsAll};

use arrayvec::ArrayVec;
use early_locks::{Taken, give, give_durable};
use log_table::{LogTable, Seat};
use txn_jobs::MOST_PARTIES;
use txn_parts::{Release, TakenAccount};

/// Gives the accounts back in the order in which they were taken. `durable`: the worker has seen that the end record of the
/// transfer is on the disk.
#[inline(always)]
pub fn give_all(
    table: &LogTable,
    seat: &mut Seat,
    holdings: &mut ArrayVec<TakenAccount, MOST_PARTIES>,
    release: Release,
    durable: bool,
)
    requires seat { IsOf table.now seat.old }
    requires ready { IsReady (view_of seat.old) }
    requires holds { HoldsKnown table.now.accounts holdings.old.items (view_of seat.old).books }
    requires values { All (GoesBack release (view_of seat.old).books) holdings.old.items }
    requires durable { MayGiveAs durable (view_of seat.old) }
    ensures { ReturnsAll holdings.old.items seat.old seat.new }
{
    'holdings: for holding in holdings.drain(..) {
        let (balance, mark) = release.values(&holding);
        give_one(table, seat, holding.taken, balance, mark, durable);
    }
}

/// Gives the accounts back as they were taken. The transfer has no Commit.
pub fn give_unchanged(
    table: &LogTable,
    seat: &mut Seat,
    holdings: &mut ArrayVec<TakenAccount, MOST_PARTIES>,
)
    requires seat { IsOf table.now seat.old }
    requires ready { IsReady (view_of seat.old) }
    requires holds { HoldsKnown table.now.accounts holdings.old.items (view_of seat.old).books }
    requires uncommitted { has_commit (recs_of (view_of seat.old).books.placed) ≡ false }
    ensures { ReturnsAll holdings.old.items seat.old seat.new }
{
    give_all(table, seat, holdings, Release::Unchanged, false);
}

fn give_one(table: &LogTable, seat: &mut Seat, taken: Taken, balance: u64, mark: u32, durable: bool)
    requires seat { IsOf table.now seat.old }
    requires ready { IsReady (view_of seat.old) }
    requires holds { HoldsTaken taken (view_of seat.old).books }
    requires known { taken.account < table.now.accounts }
    requires balance { balance ≤ MOST_BALANCE }
    requires values { GivesBack taken balance mark seat.old }
    requires durable { MayGiveAs durable (view_of seat.old) }
    ensures { HasGivenBack taken balance seat.old seat.new }
{
    if durable {
        give_durable(table, seat, taken, balance, mark);
    } else {
        give(table, seat, taken, balance, mark);
    }
}
