//! The leader of a group closes it, reserves for it and tells it, or refuses it.
ghost use Rattle.std.specs.Prelude.{◌≡◌, ◌^◌, ◌<◌, IfSome};
ghost use Rattle.log_rule.specs.declared.group_view.MemberStep.TheVariants.{Stores, Tells};
ghost use Rattle.log_rule.specs.Groups.{Granted, Refused};
ghost use Rattle.slot_rig.specs.Shares.{Awaits, IsMember, IsPlacing, Leads};

use crate::share::{Refusal, Share};
use log_table::{LogTable, Seat};
use lsn_space::Lsn;
use slot_word::SlotWord;

/// The range of a group: it begins at this LSN, and has so many units.
#[derive(Drop)]
pub struct GroupRange {
    pub base: Lsn,
    pub total: u32,
    ghost few: { total < 2 ^ 31 },
}

/// Closes the group that the seat leads. Answers its total.
pub fn close(table: &LogTable, seat: &mut Seat, share: &Share) -> u32
    requires leads { Leads table.now share.now seat.old }
    ensures closed { IsPlacing table.now share.now result seat.new }
{
    table.close_slot(seat, share.slot).total()
}

/// Reserves for the group that the seat has closed. None: it has no room, or another worker was faster.
fn place(table: &LogTable, seat: &mut Seat, share: &Share, total: u32) -> Option<GroupRange>
    requires closed { IsPlacing table.now share.now total seat.old }
    ensures placed { IfSome result (λ range. IsMember table.now share.now (Stores range.total range.base) seat.new) }
    ensures total { IfSome result (λ range. range.total ≡ total) }
{
    let tail = table.load_tail(seat);
    let durable = table.load_durable(seat);
    let end = tail.plus(total)?;
    if end.units() as u64 > durable.units() as u64 + table.ring() as u64 {
        return None;
    }
    match table.exchange_tail(seat, tail, end) {
        Ok(()) => Some(GroupRange { base: tail, total }),
        Err(_) => None,
    }
}

/// Stores where the group's range begins.
fn store(table: &LogTable, seat: &mut Seat, share: &Share, range: &GroupRange)
    requires placed { IsMember table.now share.now (Stores range.now.total range.now.base) seat.old }
    ensures stored { IsMember table.now share.now (Tells range.now.total (Granted range.now.base)) seat.new }
{
    table.store_base(seat, share.slot, range.base.units() as u64);
}

/// Tells the members that the group has its range.
fn tell(table: &LogTable, seat: &mut Seat, share: &Share, range: &GroupRange)
    requires stored { IsMember table.now share.now (Tells range.now.total (Granted range.now.base)) seat.old }
    ensures told { Awaits table.now share.now seat.new }
{
    let told = SlotWord::published(range.total, range.total);
    table.publish(seat, share.slot, told);
}

/// Closes the group that the seat leads, reserves for it, and tells it. None: it has no room, or another worker
/// was faster.
pub fn lead(table: &LogTable, seat: &mut Seat, share: &Share) -> Option<GroupRange>
    requires leads { Leads table.now share.now seat.old }
    ensures told { IfSome result (λ range. Awaits table.now share.now seat.new) }
{
    let total = close(table, seat, share);
    let range = place(table, seat, share, total)?;
    store(table, seat, share, &range);
    tell(table, seat, share, &range);
    Some(range)
}

/// Refuses the group that the seat has closed, by tail and durable as they are now. None: it has room.
fn refuse(table: &LogTable, seat: &mut Seat, share: &Share, total: u32) -> Option<Refusal>
    requires closed { IsPlacing table.now share.now total seat.old }
    ensures stored { IfSome result (λ refusal.
        IsMember table.now share.now (Tells total (Refused refusal.tail refusal.durable)) seat.new) }
{
    let tail = table.load_tail(seat);
    let durable = table.load_durable(seat);
    let end = tail.units() as u64 + total as u64;
    if end <= durable.units() as u64 + table.ring() as u64 {
        return None;
    }
    let word = tail.units() as u64 * 0x1_0000_0000 + durable.units() as u64;
    table.store_base(seat, share.slot, word);
    Some(Refusal { tail, durable })
}

/// Closes the group that the seat leads, for which the ring has no room, and tells it so. None: it has room.
pub fn lead_without_room(table: &LogTable, seat: &mut Seat, share: &Share) -> Option<Refusal>
    requires leads { Leads table.now share.now seat.old }
    ensures told { IfSome result (λ refusal. Awaits table.now share.now seat.new) }
{
    let wanted = close(table, seat, share);
    let refusal = refuse(table, seat, share, wanted)?;
    table.publish(seat, share.slot, SlotWord::refused(wanted, wanted));
    Some(refusal)
}
