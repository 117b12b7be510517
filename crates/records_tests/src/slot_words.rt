//! The word of a slot, and its fields.

use slot_word::{Phase, SlotWord};
use std::process::Abort;

/// The greatest total, and the greatest number of units that remain.
const MOST: u32 = 0x7fff_ffff;

fn is_packed(rt: &impl Abort, slot: SlotWord, word: u64) {
    let packed = slot.pack();
    assert_eq!(rt; packed, word);
    assert_eq!(rt; SlotWord::unpack(packed), slot);
}

fn is_read(rt: &impl Abort, slot: SlotWord, fields: (Phase, u32, u32)) {
    assert_eq!(rt; (slot.phase(), slot.total(), slot.remaining()), fields);
}

#[test]
fn the_fields_of_a_slot_stand_in_their_places(rt: HostRuntime) {
    is_packed(&rt, SlotWord::fresh(5), 0x0000_0002_8000_0000);
    is_packed(&rt, SlotWord::pending(), 0x4000_0000_0000_0000);
    is_packed(&rt, SlotWord::published(5, 5), 0x8000_0002_8000_0005);
    is_packed(&rt, SlotWord::refused(5, 5), 0xc000_0002_8000_0005);
}

#[test]
fn the_fields_of_a_slot_go_to_their_bounds(rt: HostRuntime) {
    is_packed(&rt, SlotWord::fresh(0), 0);
    is_packed(&rt, SlotWord::fresh(MOST), 0x3fff_ffff_8000_0000);
    is_packed(&rt, SlotWord::published(0, 0), 0x8000_0000_0000_0000);
    is_packed(&rt, SlotWord::published(MOST, 0), 0xbfff_ffff_8000_0000);
    is_packed(&rt, SlotWord::published(0, MOST), 0x8000_0000_7fff_ffff);
    is_packed(&rt, SlotWord::published(MOST, MOST), 0xbfff_ffff_ffff_ffff);
    is_packed(&rt, SlotWord::refused(MOST, MOST), u64::MAX);
}

#[test]
fn each_phase_is_read(rt: HostRuntime) {
    is_read(&rt, SlotWord::fresh(5), (Phase::Gathering, 5, 0));
    is_read(&rt, SlotWord::pending(), (Phase::Pending, 0, 0));
    is_read(&rt, SlotWord::published(5, 3), (Phase::Published, 5, 3));
    is_read(&rt, SlotWord::refused(5, 3), (Phase::Refused, 5, 3));
}

#[test]
fn a_join_adds_to_the_total(rt: HostRuntime) {
    is_packed(&rt, SlotWord::fresh(0).joined(26), 0x0000_000d_0000_0000);
    is_packed(&rt, SlotWord::fresh(2).joined(3), 0x0000_0002_8000_0000);
    is_packed(
        &rt,
        SlotWord::fresh(MOST - 26).joined(26),
        0x3fff_ffff_8000_0000,
    );
}

#[test]
fn a_release_takes_from_what_remains(rt: HostRuntime) {
    let published = SlotWord::published(5, 5);
    is_packed(&rt, published.less(2), 0x8000_0002_8000_0003);
    is_packed(&rt, published.less(5), 0x8000_0002_8000_0000);
    is_packed(&rt, SlotWord::refused(5, 5).less(2), 0xc000_0002_8000_0003);
    is_packed(
        &rt,
        SlotWord::published(MOST, MOST).less(MOST),
        0xbfff_ffff_8000_0000,
    );
}
