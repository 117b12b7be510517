//! A run that tests make alike, and the events of the ring machine as events of the run.

use lsn_space::Lsn;
use ring_core::RingEvent;
use slot_core::{SlotEvent, SlotRun};
use std::alloc::Global;
use std::process::Abort;
use std::test::Fail;

/// A run with one slot, from LSN 4 on, with a ring of 1024 units.
pub fn new_run(alloc: Global) -> Result<SlotRun, Fail> {
    match SlotRun::make(alloc, Lsn::new(4), 1024, 1) {
        Ok(run) => Ok(run),
        Err(_) => Err(Fail::new("no memory")),
    }
}

/// The event is taken, or it isn't.
pub fn is_taken(
    rt: &impl Abort,
    run: &mut SlotRun,
    event: SlotEvent,
    taken: bool,
) -> Result<(), Fail> {
    match run.apply(event) {
        Ok(answer) => {
            assert_eq!(rt; answer, taken, "{event:?}");
            Ok(())
        }
        Err(_) => Err(Fail::new("no memory")),
    }
}

/// Exposed and the tail are so far.
pub fn stands_at(rt: &impl Abort, run: &SlotRun, exposed: u32, tail: u32) {
    let ring = run.ring();
    assert_eq!(rt;
        (ring.exposed().units(), ring.tail().units()),
        (exposed, tail)
    );
}

pub fn reserve(by: u32, n: u32) -> SlotEvent {
    SlotEvent::Ring(RingEvent::Reserve { by, n })
}

pub fn fill(by: u32) -> SlotEvent {
    SlotEvent::Ring(RingEvent::Fill { by })
}

pub fn mark(by: u32) -> SlotEvent {
    SlotEvent::Ring(RingEvent::Mark { by })
}

pub fn look_exposed(by: u32) -> SlotEvent {
    SlotEvent::Ring(RingEvent::LookExposed { by })
}

pub fn look_mark(by: u32) -> SlotEvent {
    SlotEvent::Ring(RingEvent::LookMark { by })
}

pub fn raise(by: u32) -> SlotEvent {
    SlotEvent::Ring(RingEvent::Raise { by })
}
