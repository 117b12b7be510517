//! Seats are made, and taken in again.
ghost use Rattle.std.specs.Prelude.{◌≡◌, ◌≤◌, ◌^◌, ℕ, length, IfOk, false};
ghost use Rattle.lsn_space.specs.declared.lsn.TheConstants.{LEAST_RING, GREATEST_RING, MOST_SLOTS};
ghost use Rattle.log_rule.specs.May.{MaySplit, MayMerge};
ghost use Rattle.log_rule.specs.FirstAccounts.{HasAccounts};
ghost use Rattle.log_table.specs.Seats.{IsOf, Becomes, view_of, key_of};
ghost use Rattle.log_table.specs.Steps.{Splits};
ghost use Rattle.log_rule.specs.Sound.{HasReadStop};
ghost use Rattle.log_rule.specs.Roles.{is_spent};
ghost use Rattle.log_rule.specs.Views.{flusher};
ghost use Rattle.log_rule.specs.CrewViews.{noted, takes_in};

use crate::plays::{Hire, MakeNote, Number, TakeIn, TellStop};
use crate::table::{LogTable, Seat};
use atomic_table::Table;
use log_rule::Start;
use lsn_space::NoMemory;
use std::alloc::Global;
use std::marker::Brand;
use table_bells::Bells;
use table_layout::{DURABLE, EXPOSED, STOP, TAIL, account_place, put_accounts};

/// The new seat's view has the worker's number, which a step can't see: it comes by the type.
fn split_as<N: Number>(table: &LogTable, seat: &mut Seat, worker: u32) -> Seat
    requires seat { IsOf table.now seat.old }
    requires may { MaySplit worker (view_of seat.old) }
    requires named { N.number ≡ worker }
    ensures { Splits table.now worker seat.old seat.new result }
{
    let base = table.table.shared.split_seat::<Hire<N>>(&mut seat.base);
    Seat { base, worker }
}

impl LogTable {
    /// A table at rest, and the flusher's seat. The ring's length is a power of two.
    pub fn make(alloc: Global, start: Start) -> Result<(LogTable, Seat), NoMemory>
        requires ring { (LEAST_RING ≤ start.ring) × (start.ring ≤ GREATEST_RING) }
        requires power { (n : ℕ) × (start.ring ≡ 2 ^ n) }
        requires slots { start.slots ≤ MOST_SLOTS }
        requires accounts { HasAccounts start }
        ensures seat { IfOk result (λ made. IsOf made.0 made.1) }
        ensures view { IfOk result (λ made. view_of made.1 ≡ flusher start) }
        ensures ring { IfOk result (λ made. made.0.ring ≡ start.ring) }
        ensures slots { IfOk result (λ made. made.0.slots ≡ start.slots) }
        ensures accounts { IfOk result (λ made. made.0.accounts ≡ length start.accounts.rows) }
        ensures key { IfOk result (λ made. key_of made.0 ≡ start) }
    {
        let accounts = start.accounts.count();
        let Ok(mut words) = vec![in alloc; 0u64; account_place(start.ring, start.slots, accounts)]
        else {
            return Err(NoMemory);
        };
        let lsn = start.start.units() as u64;
        words[TAIL] = lsn;
        words[EXPOSED] = lsn;
        words[DURABLE] = lsn;
        put_accounts(&mut words, start.ring, start.slots, &start.accounts);
        let Ok((table, base)) = Table::of_words(alloc, words.as_slice(), &start) else {
            return Err(NoMemory);
        };
        let Start {
            ring,
            slots,
            accounts: rows,
            ..
        } = start;
        let table = LogTable {
            table,
            ring,
            slots,
            accounts,
            rows,
            bells: Bells::new(),
        };
        Ok((table, Seat { base, worker: 0 }))
    }

    /// A seat for a new worker of this number.
    pub fn split(&self, seat: &mut Seat, worker: u32) -> Seat
        requires seat { IsOf self.now seat.old }
        requires may { MaySplit worker (view_of seat.old) }
        ensures { Splits self.now worker seat.old seat.new result }
    {
        split_as::<Brand>(self, seat, worker)
    }

    /// A note: a seat that knows what this one knows, and owns no entries. Merged into the flusher's
    /// seat, it teaches that seat that the worker is enrolled, where it was when the note was made.
    pub fn note(&self, seat: &mut Seat) -> Seat
        requires seat { IsOf self.now seat.old }
        requires unspent { is_spent (view_of seat.old).standing.role ≡ false }
        ensures old { Becomes seat.old seat.new (view_of seat.old) }
        ensures new { IsOf self.now result }
        ensures view { view_of result ≡ noted (view_of seat.old) }
    {
        let base = self.table.shared.split_seat::<MakeNote>(&mut seat.base);
        Seat {
            base,
            worker: seat.worker,
        }
    }

    /// The flusher's seat takes in the seat of a worker that has ended, or a note: the entries and the
    /// knowledge of both. A stop word that the other has read is the one that the flusher's seat stored.
    pub fn merge(&self, seat: &mut Seat, other: Seat)
        requires seat { IsOf self.now seat.old }
        requires other { IsOf self.now other }
        requires may { MayMerge (view_of seat.old) (view_of other) }
        ensures view { Becomes seat.old seat.new (takes_in (view_of seat.old) (view_of other)) }
        ensures stops { HasReadStop (view_of seat.old).sending.stop (view_of other) }
    {
        self.table
            .shared
            .join_seat::<TakeIn>(&mut seat.base, other.base);
        // Joining tells nothing of the rule; a step does.
        self.table.shared.load::<TellStop>(&mut seat.base, STOP);
    }
}
