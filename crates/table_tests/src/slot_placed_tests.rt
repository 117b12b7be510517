//! A group is placed, told, filled and released: whoever releases last exposes its range and opens the slot again.
ghost use Rattle.std.specs.Prelude.{◌≡◌, ◌≤◌, [], IfOk};
ghost use Rattle.log_rule.specs.declared.group_view.MemberStep.TheVariants.{Closes, Waits, Fills};
ghost use Rattle.log_rule.specs.declared.view.Call.TheVariants.{Idle};
ghost use Rattle.log_table.specs.HiredWorkers.{HasHired};
ghost use Rattle.log_table.specs.Seats.{key_of};
ghost use Rattle.slot_rig.specs.Shares.{HasReleased, IsMember};

use crate::found::{has_sent, is_at};
use crate::inserting_tests::BOTH;
use crate::slot_found::{has_left, is_range};
use log_table::{LogTable, Seat};
use lsn_space::Lsn;
use slot_rig::{Pair, Share, fill_piece, gather_both, hear, lead, leave, pair_of};
use std::alloc::Global;
use std::process::Abort;
use std::test::Fail;
use test_rig::{send_all, table_with_slots};

/// A group of two that was placed: the table, the flusher's seat, both members with their shares, and where the range begins.
#[derive(Drop)]
struct Placed {
    table: LogTable,
    flusher_seat: Seat,
    one: Seat,
    ours: Share,
    two: Seat,
    theirs: Share,
    base: Lsn,
}

/// The leader places the group of five units behind 4, and both hear that. Answers where the range begins.
fn both_hear<R: Abort>(
    rt: &R,
    table: &LogTable,
    one: &mut Seat,
    ours: &Share,
    two: &mut Seat,
    theirs: &Share,
) -> Result<Lsn, Fail>
    requires leads { IsMember table.now ours.now Closes one.old }
    requires waits { IsMember table.now theirs.now Waits two.old }
    ensures one { IfOk result (λ base. IsMember table.now ours.now (Fills base []) one.new) }
    ensures two { IfOk result (λ base. IsMember table.now theirs.now (Fills base []) two.new) }
{
    let Some(range) = lead(table, one, ours) else {
        return Err(Fail::new("the group was not placed"));
    };
    is_range(rt, &range, 4, 5);
    let Some(base) = hear(table, one, ours) else {
        return Err(Fail::new("the leader heard nothing"));
    };
    let Some(other) = hear(table, two, theirs) else {
        return Err(Fail::new("the other heard nothing"));
    };
    is_at(rt, "base", base, 4);
    if other != base {
        return Err(Fail::new("the other heard of another base"));
    }
    Ok(base)
}

/// Two workers join the only slot, and their group is placed.
fn placed_pair<R: Abort>(rt: &R, alloc: Global) -> Result<Placed, Fail>
    ensures flusher_seat { IfOk result (λ p. HasHired p.table 2 p.flusher_seat) }
    ensures start { IfOk result (λ p. (key_of p.table).start ≡ 4) }
    ensures workers { IfOk result (λ p. (p.ours.worker ≡ 0) × (p.theirs.worker ≡ 1)) }
    ensures behind { IfOk result (λ p. p.ours.offset ≤ p.theirs.offset) }
    ensures one { IfOk result (λ p. IsMember p.table p.ours (Fills p.base []) p.one) }
    ensures two { IfOk result (λ p. IsMember p.table p.theirs (Fills p.base []) p.two) }
{
    let (table, flusher_seat) = table_with_slots(alloc, (100, 0), 4, 1)?;
    let Some(pair) = pair_of(&table, flusher_seat, 0, 1) else {
        return Err(Fail::new("no pair"));
    };
    let Pair {
        flusher_seat,
        mut one,
        mut two,
        ours,
        theirs,
    } = pair;
    let base = both_hear(rt, &table, &mut one, &ours, &mut two, &theirs)?;
    Ok(Placed {
        table,
        flusher_seat,
        one,
        ours,
        two,
        theirs,
        base,
    })
}

/// The member fills its piece, which ends here, and releases it: so much remained before, and where it is the last, exposed is
/// there.
fn fills_and_leaves<R: Abort>(
    rt: &R,
    table: &LogTable,
    seat: &mut Seat,
    share: &Share,
    base: Lsn,
    end: u32,
    left: (u32, Option<u32>),
) -> Result<(), Fail>
    requires heard { IsMember table.now share.now (Fills base []) seat.old }
    ensures left { IfOk result (λ done. HasReleased table.now share.now base Idle seat.new) }
{
    let Some(at) = fill_piece(table, seat, share, base) else {
        return Err(Fail::new("the piece is no part of the log"));
    };
    is_at(rt, "the end of the piece", at, end);
    let Some(found) = leave(table, seat, share, base) else {
        return Err(Fail::new("the range was not exposed"));
    };
    has_left(rt, found, left.0, left.1);
    Ok(())
}

/// The flusher's seat sends both notes, and takes in both workers: the log is their pieces of the range that begins at the one
/// LSN, and ends behind them.
fn ends<R: Abort>(
    rt: &R,
    alloc: Global,
    table: LogTable,
    flusher_seat: Seat,
    base: Lsn,
    one: (Seat, Share),
    two: (Seat, Share),
) -> Result<(), Fail>
    requires flusher_seat { HasHired table 2 flusher_seat }
    requires start { (key_of table).start ≡ 4 }
    requires workers { (one.1.worker ≡ 0) × (two.1.worker ≡ 1) }
    requires behind { one.1.offset ≤ two.1.offset }
    requires one { HasReleased table one.1 base Idle one.0 }
    requires two { HasReleased table two.1 base Idle two.0 }
{
    let mut flusher_seat = flusher_seat;
    let (units, to) = send_all(alloc, &table, &mut flusher_seat, Lsn::new(4))?;
    has_sent(rt, units.as_slice(), to, &BOTH, 9);
    gather_both(
        &table,
        &mut flusher_seat,
        base,
        one.0,
        &one.1,
        two.0,
        &two.1,
    );
    is_at(rt, "end", table.close(flusher_seat).lsn(), 9);
    Ok(())
}

#[test]
fn the_leader_releases_last(rt: HostRuntime) -> Result<(), Fail> {
    let alloc = rt.alloc();
    let placed = placed_pair(&rt, alloc)?;
    let Placed {
        table,
        flusher_seat,
        mut one,
        ours,
        mut two,
        theirs,
        base,
    } = placed;
    fills_and_leaves(&rt, &table, &mut two, &theirs, base, 9, (5, None))?;
    fills_and_leaves(&rt, &table, &mut one, &ours, base, 6, (2, Some(9)))?;
    ends(
        &rt,
        alloc,
        table,
        flusher_seat,
        base,
        (one, ours),
        (two, theirs),
    )
}

#[test]
fn the_other_releases_last(rt: HostRuntime) -> Result<(), Fail> {
    let alloc = rt.alloc();
    let placed = placed_pair(&rt, alloc)?;
    let Placed {
        table,
        flusher_seat,
        mut one,
        ours,
        mut two,
        theirs,
        base,
    } = placed;
    fills_and_leaves(&rt, &table, &mut one, &ours, base, 6, (5, None))?;
    fills_and_leaves(&rt, &table, &mut two, &theirs, base, 9, (3, Some(9)))?;
    ends(
        &rt,
        alloc,
        table,
        flusher_seat,
        base,
        (one, ours),
        (two, theirs),
    )
}
