//! The crew: how many workers are active.
ghost use Rattle.std.specs.Prelude.{◌≡◌, ◌+◌, ◌-◌};
ghost use Rattle.log_rule.specs.declared.view.Role.TheVariants.{Fresh};
ghost use Rattle.log_rule.specs.Events.{none};
ghost use Rattle.table_layout.specs.Layout.{Crew};
ghost use Rattle.log_rule.specs.May.{MayLeave};
ghost use Rattle.log_table.specs.Seats.{IsOf, view_of};
ghost use Rattle.log_table.specs.Steps.{ChangesWord, LoadsWord};
ghost use Rattle.log_rule.specs.Views.{saw_crew};
ghost use Rattle.log_rule.specs.CrewViews.{enrolled, retired};

use crate::plays::{Enroll, Leave, LoadCrew};
use crate::table::{LogTable, Seat};
use table_layout::CREW;

impl LogTable {
    /// Counts a new worker as active.
    pub fn enroll(&self, seat: &mut Seat)
        requires seat { IsOf self.now seat.old }
        requires fresh { (view_of seat.old).standing.role ≡ Fresh }
        ensures { ChangesWord self.now Crew (λ found. found + 1) (enrolled (view_of seat.old)) none seat.old seat.new }
    {
        self.table
            .shared
            .fetch_add::<Enroll>(&mut seat.base, CREW, 1);
    }

    /// Counts an active worker, which has nothing under way and holds no account, as ended.
    pub fn leave(&self, seat: &mut Seat)
        requires seat { IsOf self.now seat.old }
        requires may { MayLeave (view_of seat.old) }
        ensures { ChangesWord self.now Crew (λ found. found - 1) (retired (view_of seat.old)) none seat.old seat.new }
    {
        self.table
            .shared
            .fetch_sub::<Leave>(&mut seat.base, CREW, 1);
    }

    /// The number of active workers. Where it is 0 and the seat knows that every worker made was
    /// enrolled, its view is quiet: none will ever be at work again, but those made later.
    pub fn load_crew(&self, seat: &mut Seat) -> u64
        requires { IsOf self.now seat.old }
        ensures { LoadsWord self.now Crew result (saw_crew result (view_of seat.old)) none seat.old seat.new }
    {
        self.table.shared.load::<LoadCrew>(&mut seat.base, CREW)
    }
}
