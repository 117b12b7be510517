//! A whole insert.
ghost use Rattle.std.specs.Prelude.{◌≡◌, length, IfOk, IfErr, OnOk};
ghost use Rattle.log_record.specs.Spelling.{spelling};
ghost use Rattle.log_rule.specs.Books.{next_of};
ghost use Rattle.log_table.specs.Seats.{IsOf, view_of};
ghost use Rattle.ring_buffer.specs.Calls.{IsReady, MayPlace, PlacesNext, KeepsEntries, IsSameWorker, IsRefusedNow, SeesNoStop};
ghost use Rattle.ring_buffer.specs.Inserting.{Inserts};

use crate::call::Range;
use crate::filling::fill;
use crate::placing::{look, try_place};
use crate::refused::Refused;
use crate::releasing::{expose, finish};
use log_record::Units;
use log_table::{LogTable, Seat};
use lsn_space::Lsn;
use schedule_hook::{Gate, Place};

/// Inserts the next record of the seat's last job, which has these units, behind what other workers
/// have reserved, and answers where it begins once it is released. It waits for nobody, and returns: where
/// another was faster it reserves again, and what others have yet to release they expose. It is for a
/// table without slots: with them a lost exchange leaves the seat contended, so it couldn't reserve alone again.
pub fn insert_alone<G: Gate>(
    table: &LogTable,
    seat: &mut Seat,
    units: &Units,
    gate: &G,
) -> Result<Lsn, Refused>
    requires seat { IsOf table.now seat.old }
    requires no_slots { table.now.slots ≡ 0 }
    requires ready { IsReady (view_of seat.old) }
    requires next { MayPlace (length units.now) (view_of seat.old).books }
    requires units { units.now ≡ spelling (next_of (view_of seat.old).books) }
    ensures { Inserts (IsRefusedNow seat.old seat.new table.now.ring (length units.now)) seat.old seat.new (length units.now) result }
{
    let n = units.as_slice().len() as u32;
    let range = place_among(table, seat, n, gate)?;
    gate.at(seat.worker(), Place::Placed);
    let at = range.start();
    let filled = fill(table, seat, range, units);
    gate.at(seat.worker(), Place::Filled);
    finish(table, seat, filled);
    gate.at(seat.worker(), Place::Marked);
    expose(table, seat);
    gate.at(seat.worker(), Place::Exposed);
    Ok(at)
}

/// Looks and reserves for the next record of the seat's last job until no other worker is faster. It
/// returns: each time the tail is greater.
fn place_among<G: Gate>(
    table: &LogTable,
    seat: &mut Seat,
    n: u32,
    gate: &G,
) -> Result<Range, Refused>
    requires seat { IsOf table.now seat.old }
    requires no_slots { table.now.slots ≡ 0 }
    requires ready { IsReady (view_of seat.old) }
    requires next { MayPlace n (view_of seat.old).books }
    ensures placed { IfOk result (PlacesNext (view_of seat.old) (view_of seat.new) n) }
    ensures same { OnOk result (IsSameWorker seat.old seat.new) }
    ensures kept { IfErr result (λ e. KeepsEntries seat.old seat.new) }
    ensures refused { IfErr result (IsRefusedNow seat.old seat.new table.now.ring n) }
    ensures stop { SeesNoStop seat.old seat.new }
{
    'places: loop {
        let seen = look(table, seat);
        gate.at(seat.worker(), Place::Looked);
        if let Some(range) = try_place(table, seat, seen, n)? {
            return Ok(range);
        }
    }
}
