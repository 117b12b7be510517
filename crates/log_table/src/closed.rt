//! The end of a table, when all workers have ended and were merged.
ghost use Rattle.std.specs.Prelude.{◌≡◌, ◌<◌, ◌≤◌, length};
ghost use Rattle.lsn_space.specs.declared.lsn.TheConstants.{GREATEST_RING, MOST_SLOTS};
ghost use Rattle.lock_core.specs.AccountRows.{row};
ghost use Rattle.log_rule.specs.ClosedLog.{HasHeardOfWorkers, IsGathered, HasLedger, in_use};
ghost use Rattle.log_rule.specs.May.{MayClose};
ghost use Rattle.log_table.specs.Seats.{IsOf, view_of, key_of};
ghost use Rattle.log_rule.specs.Sound.{base_of};
ghost use Rattle.std.specs.Slots.{slots_len, slots_items, IsFull};
ghost use Rattle.table_layout.specs.Layout.{word_count};

use crate::table::{LogTable, Seat};
use lsn_space::{Balances, Lsn};
use std::alloc::Global;
use table_layout::{EXPOSED, TAIL, read_rows, slot_place};

/// What the words of a closed table held.
#[derive(Drop)]
pub struct Closed {
    tail: Lsn,
    exposed: Lsn,
    in_use: u64,
    accounts: Balances,
}

impl Closed {
    /// The end of the log.
    pub fn lsn(&self) -> Lsn
        ensures { result ≡ self.now.tail }
    {
        self.tail
    }

    /// Everything below is released and exposed.
    pub fn exposed(&self) -> Lsn
        ensures { result ≡ self.now.exposed }
    {
        self.exposed
    }

    /// The number of slots that were in use: where nobody is, a slot's state is 0.
    pub fn slots_in_use(&self) -> u64
        ensures { result ≡ self.now.in_use }
    {
        self.in_use
    }

    /// The accounts: their balances and last commits.
    pub fn accounts(&self) -> &Balances
        ensures { result.now ≡ self.now.accounts }
    {
        &self.accounts
    }

    /// The account's balance.
    pub fn balance(&self, account: u32) -> u64
        requires { account < length self.now.accounts.rows }
        ensures { result ≡ (row self.now.accounts.rows account).0 }
    {
        self.accounts.at(account).0
    }

    /// The LSN at which the account's last commit ends, 0 where it has none.
    pub fn mark(&self, account: u32) -> u32
        requires { account < length self.now.accounts.rows }
        ensures { result ≡ (row self.now.accounts.rows account).1 }
    {
        self.accounts.at(account).1
    }
}

/// Counts the slots in use by the words of a closed table whose ring has that length, and which has so many
/// slots.
fn count_in_use(closed: &atomic_table::Closed<(), Global>, ring: u32, slots: u32) -> u64
    requires ring { ring ≤ GREATEST_RING }
    requires slots { slots ≤ MOST_SLOTS }
    requires size { word_count ring slots 0 ≤ slots_len closed.now.words }
    requires full { IsFull closed.now.words }
    ensures { result ≡ in_use ring slots (slots_items closed.now.words) }
{
    let mut count = 0;
    for slot in 0..slots {
        let word = closed.word(slot_place(ring, slot));
        count += word.min(1);
    }
    count
}

impl LogTable {
    /// Ends the table: the entries gathered in the flusher's seat are the whole log, and all of it is
    /// released. No slot is in use. Where no job number stands twice, the log is lawful, the jobs are run whole or cut
    /// short, and the accounts are the log's. A group that was refused had no greater total than the workers
    /// that were made can bring.
    pub fn close(self, seat: Seat) -> Closed
        requires seat { IsOf self seat }
        requires may { MayClose (view_of seat) }
        ensures gathered { IsGathered result.tail (view_of seat) }
        ensures released { result.exposed ≡ result.tail }
        ensures empty { result.in_use ≡ 0 }
        ensures accounts { HasLedger (base_of (key_of self)) (view_of seat) result.accounts.rows }
        ensures heard { HasHeardOfWorkers (view_of seat) }
    {
        let LogTable {
            table,
            ring,
            slots,
            accounts: _,
            mut rows,
            bells: _,
        } = self;
        let closed = table.close_with(seat.base);
        let tail = closed.word(TAIL);
        let exposed = closed.word(EXPOSED);
        let in_use = count_in_use(&closed, ring, slots);
        read_rows(&mut rows, &closed, ring, slots);
        closed.free();
        Closed {
            tail: Lsn::new(tail as u32),
            exposed: Lsn::new(exposed as u32),
            in_use,
            accounts: rows,
        }
    }
}
