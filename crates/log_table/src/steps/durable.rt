//! Durable: everything below is on the disk.
ghost use Rattle.std.specs.Prelude.{◌≡◌, ◌≤◌};
ghost use Rattle.log_rule.specs.Events.{IsStep, flushes, none};
ghost use Rattle.table_layout.specs.Layout.{Durable};
ghost use Rattle.log_rule.specs.May.{MaySend};
ghost use Rattle.log_table.specs.Seats.{IsOf, Becomes, view_of, number_of, key_of};
ghost use Rattle.log_table.specs.Steps.{ChangesAtOnce};
ghost use Rattle.log_rule.specs.Sends.{IsDurableToFlusher};
ghost use Rattle.log_rule.specs.Views.{saw_durable, has_sent};

use crate::plays::{LoadDurable, Stepper, StoreDurable};
use crate::table::{LogTable, Seat};
use lsn_space::Lsn;
use std::marker::Brand;
use table_layout::DURABLE;

/// The seat's number and what the table was made with, which a step can't see, come by the type.
fn store_durable_as<S: Stepper>(table: &LogTable, seat: &mut Seat, to: Lsn)
    requires seat { IsOf table.now seat.old }
    requires next { MaySend to (view_of seat.old) }
    requires named { (S.key ≡ key_of table.now) × (S.seat ≡ number_of seat.old) }
    ensures { ChangesAtOnce table.now Durable (λ _. to) (has_sent to (view_of seat.old)) (flushes to) seat.old seat.new }
{
    table
        .table
        .shared
        .store::<StoreDurable<S>>(&mut seat.base, DURABLE, to.units() as u64);
}

impl LogTable {
    pub fn load_durable(&self, seat: &mut Seat) -> Lsn
        requires { IsOf self.now seat.old }
        ensures view { Becomes seat.old seat.new (saw_durable result (view_of seat.old)) }
        ensures grows { (view_of seat.old).seen.durable ≤ result }
        ensures flusher { IsDurableToFlusher (view_of seat.old) result }
        ensures event { IsStep (key_of self.now) (number_of seat.old) Durable result result
            (view_of seat.old) (saw_durable result (view_of seat.old)) none }
    {
        Lsn::new(
            self.table
                .shared
                .load::<LoadDurable>(&mut seat.base, DURABLE) as u32,
        )
    }

    /// Tells that all units read are on the disk, which are all up to exposed as the flusher's seat
    /// loaded it last. As durable is stored the rule holds of some views of all seats, this one's, as it
    /// is then, among them. Who listens for it is woken.
    pub fn store_durable(&self, seat: &mut Seat, to: Lsn)
        requires seat { IsOf self.now seat.old }
        requires next { MaySend to (view_of seat.old) }
        ensures { ChangesAtOnce self.now Durable (λ _. to) (has_sent to (view_of seat.old)) (flushes to) seat.old seat.new }
    {
        store_durable_as::<Brand>(self, seat, to);
        self.bells.ring();
    }
}
