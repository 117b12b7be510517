//! A member releases its piece. The last one marks the group's range, exposes it and opens the slot again.
ghost use Rattle.std.specs.Prelude.{◌≡◌, ◌≢◌, length, IfSome};
ghost use Rattle.log_rule.specs.declared.group_view.After.TheVariants.{Reopens};
ghost use Rattle.log_rule.specs.declared.group_view.MemberStep.TheVariants.{Leaves};
ghost use Rattle.log_rule.specs.declared.view.Call.TheVariants.{Idle, Marked, Reopening};
ghost use Rattle.slot_rig.specs.Shares.{Empties, HasFilled, HasLeft, HasReleased, IsMember};

use crate::share::{Refusal, Share};
use log_table::{LogTable, Seat};
use lsn_space::Lsn;
use slot_word::SlotWord;

/// What a member found that released: how much of its group remained before, and where exposed is, if it was the last,
/// which exposed the group's range.
#[derive(Clone, Copy, Debug, PartialEq, Eq)]
pub struct Left {
    pub remaining: u32,
    pub exposed: Option<Lsn>,
}

/// Releases the seat's piece, which is filled. Answers the slot's state before.
fn release(table: &LogTable, seat: &mut Seat, share: &Share, base: Lsn) -> SlotWord
    requires filled { HasFilled table.now share.now base seat.old }
    ensures last { result.remaining ≡ length share.now.units → Empties table.now share.now base result.total seat.new }
    ensures others { result.remaining ≢ length share.now.units → HasReleased table.now share.now base Idle seat.new }
{
    let n = share.units.as_slice().len() as u32;
    table.release_slot(seat, share.slot, n)
}

/// Marks the group's range, as the last member to release. None: it would end behind the log.
fn mark_range(
    table: &LogTable,
    seat: &mut Seat,
    share: &Share,
    base: Lsn,
    total: u32,
) -> Option<Lsn>
    requires emptying { Empties table.now share.now base total seat.old }
    ensures marked { IfSome result (λ end. HasReleased table.now share.now base (Marked (Reopens share.now.slot)) seat.new) }
{
    let end = base.plus(total)?;
    table.store_mark(seat, base, end);
    Some(end)
}

/// Exposes the group's range, which is marked. Answers where exposed is then; None: there was nothing to expose, or
/// there is more.
fn expose_range(table: &LogTable, seat: &mut Seat, share: &Share, base: Lsn) -> Option<Lsn>
    requires marked { HasReleased table.now share.now base (Marked (Reopens share.now.slot)) seat.old }
    ensures exposed { IfSome result (λ at. HasReleased table.now share.now base (Reopening share.now.slot) seat.new) }
{
    let from = table.load_exposed(seat);
    let to = table.load_mark(seat, from);
    if to <= from {
        return None;
    }
    let Ok(()) = table.exchange_exposed(seat, from, to) else {
        return None;
    };
    let next = table.load_mark(seat, to);
    if next > to {
        return None;
    }
    Some(to)
}

/// Marks and exposes the group's range, and opens the slot again. Answers where exposed is then.
fn empty(table: &LogTable, seat: &mut Seat, share: &Share, base: Lsn, total: u32) -> Option<Lsn>
    requires emptying { Empties table.now share.now base total seat.old }
    ensures opened { IfSome result (λ at. HasReleased table.now share.now base Idle seat.new) }
{
    mark_range(table, seat, share, base, total)?;
    let at = expose_range(table, seat, share, base)?;
    table.reopen(seat, share.slot);
    Some(at)
}

/// Releases the seat's piece, which is filled, and empties the slot, if no more remained. None: the range could not be
/// exposed.
pub fn leave(table: &LogTable, seat: &mut Seat, share: &Share, base: Lsn) -> Option<Left>
    requires filled { HasFilled table.now share.now base seat.old }
    ensures left { IfSome result (λ left. HasReleased table.now share.now base Idle seat.new) }
{
    let n = share.units.as_slice().len() as u32;
    let before = release(table, seat, share, base);
    let remaining = before.remaining();
    if remaining != n {
        return Some(Left {
            remaining,
            exposed: None,
        });
    }
    let at = empty(table, seat, share, base, before.total())?;
    Some(Left {
        remaining,
        exposed: Some(at),
    })
}

/// Releases the seat's piece of a group that was refused, and opens the slot again, if no more remained. Answers how
/// much remained before.
pub fn leave_refused(table: &LogTable, seat: &mut Seat, share: &Share, refusal: &Refusal) -> u32
    requires heard { IsMember table.now share.now (Leaves refusal.now.tail refusal.now.durable) seat.old }
    ensures left { HasLeft table.now share.now Idle seat.new }
{
    let n = share.units.as_slice().len() as u32;
    let before = table.release_slot(seat, share.slot, n);
    let remaining = before.remaining();
    if remaining == n {
        table.reopen(seat, share.slot);
    }
    remaining
}
