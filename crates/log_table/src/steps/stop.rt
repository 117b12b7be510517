//! Stop: why the log stopped, 0 while it runs.
ghost use Rattle.log_rule.specs.Events.{none};
ghost use Rattle.table_layout.specs.Layout.{Stop};
ghost use Rattle.log_rule.specs.May.{MayStop};
ghost use Rattle.log_table.specs.Seats.{IsOf, view_of};
ghost use Rattle.log_table.specs.Steps.{ChangesWord, LoadsStop};
ghost use Rattle.log_rule.specs.Views.{saw_stop, has_stopped};

use crate::plays::{LoadStop, StoreStop};
use crate::table::{LogTable, Seat};
use table_layout::STOP;

impl LogTable {
    pub fn load_stop(&self, seat: &mut Seat) -> u64
        requires { IsOf self.now seat.old }
        ensures { LoadsStop self.now result (saw_stop result (view_of seat.old)) seat.old seat.new }
    {
        self.table.shared.load::<LoadStop>(&mut seat.base, STOP)
    }

    /// Tells the workers to stop, and why. The word, once stored, stays. Who listens for any word is woken.
    pub fn store_stop(&self, seat: &mut Seat, word: u64)
        requires seat { IsOf self.now seat.old }
        requires may { MayStop word (view_of seat.old) }
        ensures { ChangesWord self.now Stop (λ _. word) (has_stopped word (view_of seat.old)) none seat.old seat.new }
    {
        self.table
            .shared
            .store::<StoreStop>(&mut seat.base, STOP, word);
        self.bells.ring_all();
    }
}
