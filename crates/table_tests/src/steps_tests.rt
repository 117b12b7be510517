//! The steps of a flusher and of a note, on one thread.
ghost use Rattle.std.specs.Prelude.{◌≡◌};
ghost use Rattle.log_rule.specs.May.{MaySplit};
ghost use Rattle.log_table.specs.Seats.{IsOf, view_of};
ghost use Rattle.log_rule.specs.CrewViews.{hires, hired, enrolled};

use crate::found::{is_at, is_number};
use log_table::{LogTable, Seat};
use std::test::Fail;
use test_rig::table_of;

/// An enrolled worker, of which the flusher's seat knows nothing but its number.
fn worker(table: &LogTable, flusher_seat: &mut Seat, number: u32) -> Seat
    requires flusher_seat { IsOf table.now flusher_seat.old }
    requires may { MaySplit number (view_of flusher_seat.old) }
    ensures flusher_seat { IsOf table.now flusher_seat.new }
    ensures hires { view_of flusher_seat.new ≡ hires number (view_of flusher_seat.old) }
    ensures seat { IsOf table.now result }
    ensures view { view_of result ≡ enrolled (hired number (view_of flusher_seat.old)) }
{
    let mut seat = table.split(flusher_seat, number);
    table.enroll(&mut seat);
    seat
}

#[test]
fn a_worker_sees_the_stop_word(rt: HostRuntime) -> Result<(), Fail> {
    let (table, mut flusher_seat) = table_of(rt.alloc(), (100, 0), 4)?;
    let mut seat = worker(&table, &mut flusher_seat, 7);
    is_number(&rt, "worker", u64::from(seat.worker()), 7);
    is_number(&rt, "stop", table.load_stop(&mut seat), 0);
    table.store_stop(&mut flusher_seat, 2);
    is_number(&rt, "stop to a worker", table.load_stop(&mut seat), 2);
    is_number(
        &rt,
        "stop to the flusher",
        table.load_stop(&mut flusher_seat),
        2,
    );
    table.leave(&mut seat);
    table.merge(&mut flusher_seat, seat);
    is_at(&rt, "end", table.close(flusher_seat).lsn(), 4);
    Ok(())
}

#[test]
fn the_crew_is_counted(rt: HostRuntime) -> Result<(), Fail> {
    let (table, mut flusher_seat) = table_of(rt.alloc(), (100, 0), 4)?;
    is_number(&rt, "at first", table.load_crew(&mut flusher_seat), 0);
    let mut one = worker(&table, &mut flusher_seat, 0);
    let mut two = worker(&table, &mut flusher_seat, 1);
    is_number(&rt, "both", table.load_crew(&mut flusher_seat), 2);
    table.leave(&mut two);
    is_number(&rt, "one left", table.load_crew(&mut flusher_seat), 1);
    table.leave(&mut one);
    is_number(&rt, "both left", table.load_crew(&mut flusher_seat), 0);
    Ok(())
}

#[test]
fn a_note_leaves_its_worker_to_be_merged(rt: HostRuntime) -> Result<(), Fail> {
    let (table, mut flusher_seat) = table_of(rt.alloc(), (100, 0), 4)?;
    let mut seat = worker(&table, &mut flusher_seat, 5);
    let note = table.note(&mut seat);
    is_number(&rt, "worker", u64::from(note.worker()), 5);
    table.merge(&mut flusher_seat, note);
    table.leave(&mut seat);
    table.merge(&mut flusher_seat, seat);
    is_at(&rt, "end", table.close(flusher_seat).lsn(), 4);
    Ok(())
}

#[test]
fn nothing_read_may_be_sent(rt: HostRuntime) -> Result<(), Fail> {
    let (table, mut flusher_seat) = table_of(rt.alloc(), (100, 0), 4)?;
    let exposed = table.load_exposed(&mut flusher_seat);
    is_at(&rt, "exposed", exposed, 4);
    let durable = table.load_durable(&mut flusher_seat);
    if exposed == durable {
        table.store_durable(&mut flusher_seat, exposed);
    }
    is_at(&rt, "durable", table.load_durable(&mut flusher_seat), 4);
    Ok(())
}
