//! Exposed: everything below is filled and released.
ghost use Rattle.std.specs.Prelude.{◌≤◌, ◌<◌, OnOk, IfErr};
ghost use Rattle.log_rule.specs.Events.{IsStep, look_event, raises};
ghost use Rattle.table_layout.specs.Layout.{Exposed};
ghost use Rattle.log_rule.specs.MarkViews.{after_raise};
ghost use Rattle.log_rule.specs.May.{MayRaise};
ghost use Rattle.log_table.specs.Seats.{IsOf, Becomes, view_of, number_of, key_of};
ghost use Rattle.log_rule.specs.Sends.{IsExposedToFlusher};
ghost use Rattle.log_rule.specs.Views.{saw_exposed};

use crate::plays::{ExchangeExposed, LoadExposed};
use crate::table::{LogTable, Seat};
use lsn_space::Lsn;
use table_layout::EXPOSED;

impl LogTable {
    /// A seat that has just made a mark has exposed in hand then.
    pub fn load_exposed(&self, seat: &mut Seat) -> Lsn
        requires { IsOf self.now seat.old }
        ensures view { Becomes seat.old seat.new (saw_exposed result (view_of seat.old)) }
        ensures grows { (view_of seat.old).seen.exposed ≤ result }
        ensures flusher { IsExposedToFlusher (view_of seat.old) result }
        ensures event { IsStep (key_of self.now) (number_of seat.old) Exposed result result
            (view_of seat.old) (saw_exposed result (view_of seat.old)) (look_event (number_of seat.old) (view_of seat.old).call) }
    {
        Lsn::new(
            self.table
                .shared
                .load::<LoadExposed>(&mut seat.base, EXPOSED) as u32,
        )
    }

    /// Raises exposed past the range that the seat found marked, where exposed is still at its base; an
    /// Err holds the greater exposed found. Either way the seat has exposed in hand again.
    pub fn exchange_exposed(&self, seat: &mut Seat, from: Lsn, to: Lsn) -> Result<(), Lsn>
        requires seat { IsOf self.now seat.old }
        requires next { MayRaise from to (view_of seat.old) }
        ensures ok { OnOk result (Becomes seat.old seat.new (after_raise to (view_of seat.old))) }
        ensures ok_grows { OnOk result ((view_of seat.old).seen.exposed ≤ from) }
        ensures ok_event { OnOk result (IsStep (key_of self.now) (number_of seat.old) Exposed from to
            (view_of seat.old) (after_raise to (view_of seat.old)) (raises (number_of seat.old))) }
        ensures err { IfErr result (λ found. (from < found) × Becomes seat.old seat.new (after_raise found (view_of seat.old))) }
        ensures err_grows { IfErr result (λ found. (view_of seat.old).seen.exposed ≤ found) }
        ensures err_event { IfErr result (λ found.
            IsStep (key_of self.now) (number_of seat.old) Exposed found found
            (view_of seat.old) (after_raise found (view_of seat.old)) (raises (number_of seat.old))) }
    {
        let found = self.table.shared.compare_exchange::<ExchangeExposed>(
            &mut seat.base,
            EXPOSED,
            from.units() as u64,
            to.units() as u64,
        );
        if found == from.units() as u64 {
            Ok(())
        } else {
            Err(Lsn::new(found as u32))
        }
    }
}
