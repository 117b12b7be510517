//! The calls of a worker in a group, each wanting the one before it.
ghost use Rattle.std.specs.Prelude.{◌≡◌, ◌≤◌, ◌<◌, ℕ, IfOk, IfErr};
ghost use Rattle.log_rule.specs.declared.group_view.MemberStep.TheVariants.{Waits};
ghost use Rattle.log_table.specs.Seats.{IsOf, view_of};
ghost use Rattle.log_rule.specs.SlotViews.{step_joining};
ghost use Rattle.log_record.specs.Spelling.{IsTxn};
ghost use Rattle.consol_array.specs.Members.{HasPiece, MayLeaveGroup};
ghost use Rattle.table_tests.specs.Shares.{GoesOn, HasShare};
ghost use Rattle.test_rig.specs.NotedJobs.{AreNoteUnits, IsNotedJob, MayInsert};

use consol_array::{
    Heard, Joined, Leaver, Member, NotJoined, Released, fill_member, hear, lead, leave_group,
    release, try_join,
};
use lock_core::Job;
use log_record::Units;
use log_table::{LogTable, Seat};
use ring_buffer::Refused;
use std::sync::Wait;

/// Takes the job of this number, and joins the group at the worker's slot for its note, which has these units.
pub(crate) fn join_for(
    table: &LogTable,
    seat: &mut Seat,
    number: u32,
    job: &Job,
    units: &Units,
) -> Result<Joined, NotJoined>
    requires worker { MayInsert table.now number seat.old }
    requires slots { 1 ≤ table.now.slots }
    requires accounts { table.now.accounts ≡ 2 }
    requires job { IsNotedJob job.now }
    requires units { AreNoteUnits number job.now units.now }
    ensures own { IsOf table.now seat.new }
    ensures share { IfOk result (λ joined. HasShare table.now joined units.now (step_joining joined.offset) seat.new) }
    ensures goes_on { IfOk result (λ joined. (next : ℕ) → number < next → GoesOn next (view_of seat.new)) }
{
    table.take_job(seat, number, job);
    try_join(table, seat, units.as_slice().len() as u32)
}

/// Leads the group, where the seat was the first to join it.
pub(crate) fn lead_if_first(table: &LogTable, seat: &mut Seat, joined: &Joined, _units: &Units)
    requires own { IsOf table.now seat.old }
    requires share { HasShare table.now joined.now _units.now (step_joining joined.now.offset) seat.old }
    ensures own { IsOf table.now seat.new }
    ensures waits { HasShare table.now joined.now _units.now Waits seat.new }
    ensures goes_on { (next : ℕ) → GoesOn next (view_of seat.old) → GoesOn next (view_of seat.new) }
{
    if joined.offset != 0 {
        return;
    }
    lead(table, seat, joined);
}

/// Hears where the seat's piece lies, or why its group was refused.
pub(crate) fn hear_piece<R: Wait>(
    rt: &R,
    table: &LogTable,
    seat: &mut Seat,
    joined: Joined,
    _units: &Units,
) -> Result<Member, (Refused, Leaver)>
    requires own { IsOf table.now seat.old }
    requires waits { HasShare table.now joined _units.now Waits seat.old }
    ensures own { IsOf table.now seat.new }
    ensures piece { IfOk result (λ member. HasPiece table.now member _units.now (view_of seat.new)) }
    ensures goes_on { IfOk result (λ member. (next : ℕ) → GoesOn next (view_of seat.old) → GoesOn next (view_of seat.new)) }
    ensures leaves { IfErr result (λ refused. MayLeaveGroup table.now refused.1 (view_of seat.new)) }
    ensures refused_goes_on { IfErr result (λ refused. (next : ℕ) → GoesOn next (view_of seat.old) → GoesOn next (view_of seat.new)) }
{
    match hear(rt, table, seat, joined) {
        Heard::Base(member) => Ok(member),
        Heard::Refused(refused, leaver) => Err((refused, leaver)),
    }
}

/// Fills the piece, and releases it.
pub(crate) fn put_piece(
    table: &LogTable,
    seat: &mut Seat,
    member: Member,
    units: &Units,
) -> Released
    requires own { IsOf table.now seat.old }
    requires piece { HasPiece table.now member units.now (view_of seat.old) }
    ensures own { IsOf table.now seat.new }
    ensures may { (next : ℕ) → IsTxn next → GoesOn next (view_of seat.old) → MayInsert table.now next seat.new }
{
    let filled = fill_member(table, seat, member, units);
    release(table, seat, filled)
}

/// Releases the piece that the seat wanted of a group that was refused. Answers whether it was the last of its group to do so.
pub(crate) fn leave_refused(table: &LogTable, seat: &mut Seat, leaver: Leaver) -> bool
    requires own { IsOf table.now seat.old }
    requires leaves { MayLeaveGroup table.now leaver (view_of seat.old) }
    ensures may { (next : ℕ) → IsTxn next → GoesOn next (view_of seat.old) → MayInsert table.now next seat.new }
{
    leave_group(table, seat, leaver)
}
