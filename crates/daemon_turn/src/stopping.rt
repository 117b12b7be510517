//! The workers are told of a fault.
ghost use Rattle.std.specs.Prelude.{◌≡◌};
ghost use Rattle.log_rule.specs.May.{MayStop};
ghost use Rattle.log_table.specs.Seats.{IsOf, Becomes, view_of};
ghost use Rattle.log_rule.specs.Views.{has_stopped};
ghost use Rattle.daemon_turn.specs.StopWord.{stop_word};

use crate::fault::DaemonFault;
use log_table::{LogTable, Seat};

/// Tells the workers of the fault, by the flusher's seat, and answers it.
pub fn tell_fault(table: &LogTable, seat: &mut Seat, fault: DaemonFault) -> DaemonFault
    requires seat { IsOf table.now seat.old }
    requires may { MayStop (stop_word fault) (view_of seat.old) }
    ensures stops { Becomes seat.old seat.new (has_stopped (stop_word fault) (view_of seat.old)) }
    ensures fault { result ≡ fault }
{
    table.store_stop(seat, fault.word());
    fault
}
