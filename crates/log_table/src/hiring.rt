//! Workers are hired, one after another.
ghost use Rattle.std.specs.Prelude.{◌≡◌, ◌+◌};
ghost use Rattle.log_rule.specs.CrewViews.{enrolled, hired};
ghost use Rattle.log_table.specs.HiredWorkers.{HasHired};
ghost use Rattle.log_table.specs.Seats.{IsOf, view_of};

use crate::table::{LogTable, Seat};

impl LogTable {
    /// The seat of the worker of the next number. It is enrolled, and the flusher's seat knows that by
    /// a note, so that it sees when nobody is at work any more.
    pub fn hire(&self, seat: &mut Seat, worker: u32) -> Seat
        requires flusher_view { HasHired self.now worker seat.old }
        ensures flusher_view { HasHired self.now (worker + 1) seat.new }
        ensures new { IsOf self.now result }
        ensures view { view_of result ≡ enrolled (hired worker (view_of seat.old)) }
        ensures worker { result.worker ≡ worker }
    {
        let mut new = self.split(seat, worker);
        self.enroll(&mut new);
        let note = self.note(&mut new);
        self.merge(seat, note);
        new
    }
}
