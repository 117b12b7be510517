//! A group for which the ring has no room.

use crate::group_rig::{
    fill, is_taken, look_exposed, look_mark, mark, new_run, raise, reserve, stands_at,
};
use slot_core::{SlotEvent, SlotRun};
use std::process::Abort;
use std::test::Fail;

/// A reservation of 4 units, filled and exposed, by actor 1.
fn is_exposed(rt: &impl Abort, run: &mut SlotRun) -> Result<(), Fail> {
    let events = [
        reserve(1, 4),
        fill(1),
        fill(1),
        fill(1),
        fill(1),
        mark(1),
        look_exposed(1),
        look_mark(1),
        raise(1),
        look_mark(1),
    ];
    for event in events {
        is_taken(rt, run, event, true)?;
    }
    Ok(())
}

#[test]
fn a_refused_group_fills_nothing(rt: HostRuntime) -> Result<(), Fail> {
    let mut run = new_run(rt.alloc())?;
    for _ in 0..256 {
        is_exposed(&rt, &mut run)?;
    }
    stands_at(&rt, &run, 1028, 1028);
    let schedule = [
        (
            SlotEvent::Join {
                by: 1,
                slot: 0,
                n: 2,
            },
            true,
        ),
        (
            SlotEvent::Join {
                by: 2,
                slot: 0,
                n: 3,
            },
            true,
        ),
        (SlotEvent::Close { by: 1 }, true),
        (SlotEvent::Place { by: 1 }, true),
        (SlotEvent::PutBase { by: 1 }, true),
        (SlotEvent::Tell { by: 1 }, true),
        (SlotEvent::Hear { by: 1 }, true),
        (SlotEvent::Hear { by: 2 }, true),
        (fill(1), false),
        (SlotEvent::Release { by: 1 }, true),
        (SlotEvent::Reopen { by: 1 }, false),
        (SlotEvent::Release { by: 2 }, true),
        (SlotEvent::Reopen { by: 2 }, true),
        // The next group begins at offset 0: its first member closes it.
        (
            SlotEvent::Join {
                by: 1,
                slot: 0,
                n: 2,
            },
            true,
        ),
        (
            SlotEvent::Join {
                by: 2,
                slot: 0,
                n: 3,
            },
            true,
        ),
        (SlotEvent::Close { by: 2 }, false),
        (SlotEvent::Close { by: 1 }, true),
    ];
    for (event, taken) in schedule {
        is_taken(&rt, &mut run, event, taken)?;
    }
    stands_at(&rt, &run, 1028, 1028);
    Ok(())
}
