//! A member hears what became of its group, and fills its piece.
ghost use Rattle.std.specs.Prelude.{◌≡◌, ◌+◌, [], length, IfSome};
ghost use Rattle.log_rule.specs.declared.group_view.MemberStep.TheVariants.{Fills, Leaves};
ghost use Rattle.slot_rig.specs.Shares.{Awaits, HasFilled, IsMember};

use crate::share::{Refusal, Share};
use log_table::{LogTable, Seat};
use lsn_space::Lsn;
use slot_word::Phase;

/// Hears where the range of the seat's group begins. None: the group isn't told, or was refused.
pub fn hear(table: &LogTable, seat: &mut Seat, share: &Share) -> Option<Lsn>
    requires waits { Awaits table.now share.now seat.old }
    ensures heard { IfSome result (λ base. IsMember table.now share.now (Fills base []) seat.new) }
{
    match table.load_slot(seat, share.slot).phase() {
        Phase::Published => {}
        _ => return None,
    }
    Some(Lsn::new(table.load_base(seat, share.slot) as u32))
}

/// Hears by which tail and which durable the seat's group was refused. None: it isn't told, or has its range.
pub fn hear_refusal(table: &LogTable, seat: &mut Seat, share: &Share) -> Option<Refusal>
    requires waits { Awaits table.now share.now seat.old }
    ensures heard { IfSome result (λ refusal. IsMember table.now share.now (Leaves refusal.tail refusal.durable) seat.new) }
{
    match table.load_slot(seat, share.slot).phase() {
        Phase::Refused => {}
        _ => return None,
    }
    let word = table.load_base(seat, share.slot);
    Some(Refusal {
        tail: Lsn::new((word / 0x1_0000_0000) as u32),
        durable: Lsn::new((word % 0x1_0000_0000) as u32),
    })
}

/// Fills the seat's piece of the group's range, which begins there. Answers the LSN behind the piece; None: that is
/// no LSN.
pub fn fill_piece(table: &LogTable, seat: &mut Seat, share: &Share, base: Lsn) -> Option<Lsn>
    requires heard { IsMember table.now share.now (Fills base []) seat.old }
    ensures filled { IfSome result (λ end. HasFilled table.now share.now base seat.new) }
    ensures end { IfSome result (λ end. end ≡ base + share.now.offset + length share.now.units) }
{
    let list = share.units.as_slice();
    let start = base.plus(share.offset)?;
    let end = start.plus(list.len() as u32)?;
    for i in 0..list.len() {
        let at = Lsn::new(start.units() + i as u32);
        table.store_ring(seat, at, list[i]);
    }
    Some(end)
}
