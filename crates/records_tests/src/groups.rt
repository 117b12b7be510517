//! Groups of two that have room, each on one schedule of events.

use crate::group_rig::{
    fill, is_taken, look_exposed, look_mark, mark, new_run, raise, reserve, stands_at,
};
use slot_core::{SlotEvent, SlotRun};
use std::process::Abort;
use std::test::Fail;

/// Two actors join, with 2 and 3 units, and both have heard where the group's range is.
fn is_told(rt: &impl Abort, run: &mut SlotRun) -> Result<(), Fail> {
    let schedule = [
        (
            SlotEvent::Join {
                by: 1,
                slot: 0,
                n: 2,
            },
            true,
        ),
        (
            SlotEvent::Join {
                by: 2,
                slot: 0,
                n: 3,
            },
            true,
        ),
        (SlotEvent::Close { by: 2 }, false),
        (SlotEvent::Close { by: 1 }, true),
        (SlotEvent::Close { by: 1 }, false),
        (
            SlotEvent::Join {
                by: 3,
                slot: 0,
                n: 1,
            },
            false,
        ),
        (SlotEvent::Place { by: 1 }, true),
        (SlotEvent::PutBase { by: 1 }, true),
        (SlotEvent::Tell { by: 1 }, true),
        (SlotEvent::Hear { by: 1 }, true),
        (SlotEvent::Hear { by: 2 }, true),
    ];
    for (event, taken) in schedule {
        is_taken(rt, run, event, taken)?;
    }
    Ok(())
}

#[test]
fn the_last_to_release_exposes_the_range(rt: HostRuntime) -> Result<(), Fail> {
    let mut run = new_run(rt.alloc())?;
    is_told(&rt, &mut run)?;
    let schedule = [
        (fill(1), true),
        (fill(1), true),
        (fill(2), true),
        (fill(2), true),
        (fill(2), true),
        (SlotEvent::Release { by: 1 }, true),
        (mark(1), false),
        (SlotEvent::Release { by: 2 }, true),
        (mark(2), true),
        (look_exposed(2), true),
        (look_mark(2), true),
        (raise(2), true),
        (look_mark(2), true),
        (SlotEvent::Reopen { by: 2 }, true),
    ];
    for (event, taken) in schedule {
        is_taken(&rt, &mut run, event, taken)?;
    }
    stands_at(&rt, &run, 9, 9);
    is_taken(
        &rt,
        &mut run,
        SlotEvent::Join {
            by: 3,
            slot: 0,
            n: 1,
        },
        true,
    )
}

#[test]
fn a_leader_that_has_released_reserves_alone(rt: HostRuntime) -> Result<(), Fail> {
    let mut run = new_run(rt.alloc())?;
    is_told(&rt, &mut run)?;
    let own = [
        fill(1),
        fill(1),
        SlotEvent::Release { by: 1 },
        reserve(1, 1),
        fill(1),
        mark(1),
        look_exposed(1),
        look_mark(1),
    ];
    for event in own {
        is_taken(&rt, &mut run, event, true)?;
    }
    // The group's range stands before its own, and isn't filled.
    is_taken(&rt, &mut run, raise(1), false)?;
    stands_at(&rt, &run, 4, 10);
    let last = [
        fill(2),
        fill(2),
        fill(2),
        SlotEvent::Release { by: 2 },
        mark(2),
        look_exposed(2),
        look_mark(2),
        raise(2),
    ];
    for event in last {
        is_taken(&rt, &mut run, event, true)?;
    }
    stands_at(&rt, &run, 9, 10);
    for event in [
        look_mark(2),
        raise(2),
        look_mark(2),
        SlotEvent::Reopen { by: 2 },
    ] {
        is_taken(&rt, &mut run, event, true)?;
    }
    stands_at(&rt, &run, 10, 10);
    Ok(())
}

#[test]
fn refuses_what_is_out_of_turn(rt: HostRuntime) -> Result<(), Fail> {
    let mut run = new_run(rt.alloc())?;
    for (slot, n) in [(1, 1), (0, 0), (0, 27)] {
        is_taken(&rt, &mut run, SlotEvent::Join { by: 1, slot, n }, false)?;
    }
    is_told(&rt, &mut run)?;
    let schedule = [
        (SlotEvent::Close { by: 1 }, false),
        (SlotEvent::Hear { by: 1 }, false),
        (reserve(2, 1), false),
        (fill(1), true),
        (SlotEvent::Release { by: 1 }, false),
        (fill(1), true),
        (fill(1), false),
        (SlotEvent::Release { by: 1 }, true),
        (SlotEvent::Release { by: 1 }, false),
        (fill(2), true),
        (fill(2), true),
        (fill(2), true),
        (SlotEvent::Release { by: 2 }, true),
        (SlotEvent::Reopen { by: 2 }, false),
        (mark(2), true),
        (look_exposed(2), true),
        (look_mark(2), true),
        (raise(2), true),
        (look_mark(2), true),
        (SlotEvent::Reopen { by: 2 }, true),
        (SlotEvent::Reopen { by: 2 }, false),
    ];
    for (event, taken) in schedule {
        is_taken(&rt, &mut run, event, taken)?;
    }
    Ok(())
}

#[test]
fn a_group_takes_in_a_quarter_of_the_ring(rt: HostRuntime) -> Result<(), Fail> {
    let mut run = new_run(rt.alloc())?;
    for by in 0..9 {
        is_taken(&rt, &mut run, SlotEvent::Join { by, slot: 0, n: 26 }, true)?;
    }
    is_taken(
        &rt,
        &mut run,
        SlotEvent::Join {
            by: 9,
            slot: 0,
            n: 23,
        },
        false,
    )?;
    is_taken(
        &rt,
        &mut run,
        SlotEvent::Join {
            by: 9,
            slot: 0,
            n: 22,
        },
        true,
    )?;
    is_taken(
        &rt,
        &mut run,
        SlotEvent::Join {
            by: 10,
            slot: 0,
            n: 1,
        },
        false,
    )
}
