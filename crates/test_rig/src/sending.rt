//! What was inserted is sent by the flusher's seat, with no disk.
ghost use Rattle.std.specs.Prelude.{◌≡◌, [], IfOk};
ghost use Rattle.log_rule.specs.declared.view.Role.TheVariants.{Flusher};
ghost use Rattle.log_table.specs.Seats.{IsOf, view_of};
ghost use Rattle.log_rule.specs.Views.{sent_to};
ghost use Rattle.test_rig.specs.Tables.{SendsAll};

use log_table::{LogTable, Seat};
use lsn_space::Lsn;
use std::alloc::{AllocError, Global};

/// Reads all units that are exposed and not yet sent, tells that they are durable, and answers them, and
/// the LSN behind them.
pub fn send_all(
    alloc: Global,
    table: &LogTable,
    flusher_seat: &mut Seat,
    from: Lsn,
) -> Result<(Vec<u64>, Lsn), AllocError>
    requires flusher_seat { IsOf table.now flusher_seat.old }
    requires flusher { (view_of flusher_seat.old).standing.role ≡ Flusher }
    requires rests { (view_of flusher_seat.old).sending.read ≡ [] }
    requires from { sent_to (view_of flusher_seat.old) ≡ from }
    ensures { IfOk result (λ sent. SendsAll table.now sent.1 flusher_seat.old flusher_seat.new) }
{
    let to = table.load_exposed(flusher_seat);
    let mut units = Vec::new(alloc);
    for at in from.units()..to.units() {
        units.push(table.load_ring(flusher_seat, Lsn::new(at)))?;
    }
    table.store_durable(flusher_seat, to);
    Ok((units, to))
}
