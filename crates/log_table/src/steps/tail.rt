//! The tail: the end of the last reservation.
ghost use Rattle.std.specs.Prelude.{◌-◌, ◌≤◌, ◌<◌, OnOk, IfErr};
ghost use Rattle.log_rule.specs.Events.{IsStep, places, reserves, none};
ghost use Rattle.table_layout.specs.Layout.{Tail};
ghost use Rattle.log_rule.specs.May.{MayReserve, MayPlaceGroup, MayExchangeTail};
ghost use Rattle.log_table.specs.Seats.{IsOf, Becomes, view_of, number_of, key_of};
ghost use Rattle.log_rule.specs.SlotViews.{reserved_group};
ghost use Rattle.log_rule.specs.Views.{saw_tail, reserved, lost_alone};

use crate::plays::{ExchangeTail, LoadTail};
use crate::table::{LogTable, Seat};
use lsn_space::Lsn;
use table_layout::TAIL;

impl LogTable {
    pub fn load_tail(&self, seat: &mut Seat) -> Lsn
        requires { IsOf self.now seat.old }
        ensures view { Becomes seat.old seat.new (saw_tail result (view_of seat.old)) }
        ensures grows { (view_of seat.old).seen.tail ≤ result }
        ensures event { IsStep (key_of self.now) (number_of seat.old) Tail result result
            (view_of seat.old) (saw_tail result (view_of seat.old)) none }
    {
        Lsn::new(self.table.shared.load::<LoadTail>(&mut seat.base, TAIL) as u32)
    }

    /// Reserves the units from one LSN to another where the tail is still at the first: for the next record of
    /// the seat's last job, or for the group that the seat leads. An Err holds the tail found; in a table with
    /// slots a seat that made the exchange alone is contended then.
    pub fn exchange_tail(&self, seat: &mut Seat, from: Lsn, to: Lsn) -> Result<(), Lsn>
        requires seat { IsOf self.now seat.old }
        requires next { MayExchangeTail from to (view_of seat.old) }
        ensures ok { MayReserve from to (view_of seat.old)
            → OnOk result (Becomes seat.old seat.new (reserved from to (view_of seat.old))) }
        ensures ok_event { MayReserve from to (view_of seat.old) → OnOk result
            (IsStep (key_of self.now) (number_of seat.old) Tail from to
            (view_of seat.old) (reserved from to (view_of seat.old)) (reserves (number_of seat.old) (to - from))) }
        ensures group { MayPlaceGroup from to (view_of seat.old)
            → OnOk result (Becomes seat.old seat.new (reserved_group from to (view_of seat.old))) }
        ensures group_event { MayPlaceGroup from to (view_of seat.old) → OnOk result
            (IsStep (key_of self.now) (number_of seat.old) Tail from to
            (view_of seat.old) (reserved_group from to (view_of seat.old))
            (places (number_of seat.old) from (view_of seat.old).seen.durable)) }
        ensures err { MayReserve from to (view_of seat.old)
            → IfErr result (λ found. (from < found) × Becomes seat.old seat.new (lost_alone found (view_of seat.old))) }
        ensures err_event { MayReserve from to (view_of seat.old)
            → IfErr result (λ found.
            IsStep (key_of self.now) (number_of seat.old) Tail found found
            (view_of seat.old) (lost_alone found (view_of seat.old)) none) }
        ensures group_err { MayPlaceGroup from to (view_of seat.old)
            → IfErr result (λ found. (from < found) × Becomes seat.old seat.new (saw_tail found (view_of seat.old))) }
        ensures group_err_event { MayPlaceGroup from to (view_of seat.old)
            → IfErr result (λ found.
            IsStep (key_of self.now) (number_of seat.old) Tail found found
            (view_of seat.old) (saw_tail found (view_of seat.old)) none) }
    {
        let found = self.table.shared.compare_exchange::<ExchangeTail>(
            &mut seat.base,
            TAIL,
            from.units() as u64,
            to.units() as u64,
        );
        if found == from.units() as u64 {
            Ok(())
        } else {
            Err(Lsn::new(found as u32))
        }
    }
}
