//! A look at the table, of which the rule holds then.
ghost use Rattle.std.specs.Prelude.{◌≡◌};
ghost use Rattle.log_rule.specs.Events.{none};
ghost use Rattle.table_layout.specs.Layout.{Stop};
ghost use Rattle.log_table.specs.Seats.{IsOf, view_of, number_of, key_of};
ghost use Rattle.log_table.specs.Steps.{ChangesAtOnce};

use crate::plays::{Look, Stepper};
use crate::table::{LogTable, Seat};
use std::marker::Brand;
use table_layout::STOP;

/// The seat's number and what the table was made with, which a step can't see, come by the type.
fn look_as<S: Stepper>(table: &LogTable, seat: &mut Seat)
    requires seat { IsOf table.now seat.old }
    requires named { (S.key ≡ key_of table.now) × (S.seat ≡ number_of seat.old) }
    ensures { ChangesAtOnce table.now Stop (λ found. found) (view_of seat.old) none seat.old seat.new }
{
    table.table.shared.load::<Look<S>>(&mut seat.base, STOP);
}

impl LogTable {
    /// Changes nothing. At this moment the rule holds of some views of all seats, this one's among them.
    pub fn look(&self, seat: &mut Seat)
        requires { IsOf self.now seat.old }
        ensures { ChangesAtOnce self.now Stop (λ found. found) (view_of seat.old) none seat.old seat.new }
    {
        look_as::<Brand>(self, seat);
    }
}
