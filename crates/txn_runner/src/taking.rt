//! A worker takes its next transfer.
ghost use Rattle.std.specs.Prelude.{IfNone, IfSome, OnSome};
ghost use Rattle.job_queue.specs.Passes.{HasPassOf, KeepsRows};
ghost use Rattle.txn_parts.specs.Desk.{IsAtWork, WorksOn, view_at, accounts_at};
ghost use Rattle.txn_runner.specs.Stages.{MayTakeNext, HasBegun, TakesNextJob, TakesNoJob};

use job_queue::{Queue, Rows};
use schedule_hook::{Gate, Place};
use std::sync::Wait;
use txn_parts::{Desk, Made, Numbered, Relief};

/// Takes the next place of the queue for the rows' pass, makes this the transfer there, and takes it as the seat's job, together with a
/// look at the stop word, which it answers. Where it lost so many exchanges in the transfer before, it may rest then, as it holds nothing
/// yet. None: the pass took its mark, and the seat nothing.
#[inline(always)]
pub(crate) fn begin_job<R: Wait, Q: Relief, G: Gate>(
    desk: &mut Desk<'_, R, Q, G>,
    queue: &Queue,
    rows: &mut Rows,
    numbered: &mut Numbered,
    lost: u32,
) -> Option<u64>
    requires work { IsAtWork Q.Relief desk.old }
    requires may { MayTakeNext (accounts_at desk.old) queue.now rows.old (view_at desk.old) }
    ensures work { WorksOn Q.Relief desk.old desk.new }
    ensures pass { HasPassOf queue.now rows.new }
    ensures rows { KeepsRows rows.old rows.new }
    ensures taken { OnSome result (TakesNextJob queue.now numbered.new.number numbered.new.job rows.old rows.new
        desk.old.seat.now desk.new.seat.now) }
    ensures begun { IfSome result (HasBegun (accounts_at desk.new) numbered.new.number numbered.new.job (view_at desk.new)) }
    ensures none { IfNone result (TakesNoJob queue.now rows.old rows.new desk.old.seat.now desk.new.seat.now) }
{
    let Some(number) = queue.take_next(desk.rt, rows, &mut numbered.job) else {
        return None;
    };
    numbered.number = number;
    let stop = desk.table.take_job(desk.seat, number, &numbered.job);
    desk.gate.at(desk.seat.worker(), Place::JobTaken);
    rest_between(desk.relief, desk.wait, desk.made, stop, lost);
    Some(stop)
}

/// Rests between two transfers, unless the worker rests at the disk, or the log has stopped.
#[inline(always)]
fn rest_between<Q: Relief>(relief: &mut Q, wait: bool, made: Made, stop: u64, lost: u32)
    requires ready { Q.ready relief.old }
    ensures ready { Q.ready relief.new }
    ensures later { Q.later relief.old relief.new }
{
    if !wait && stop == 0 {
        relief.between(made, lost);
    }
}
