//! The ring on two schedules of events, and its half that belongs to bases alone.

use lsn_space::Lsn;
use ring_core::{RingEvent, RingLog, RingRun};
use std::process::Abort;
use std::test::Fail;

/// Whether the event is taken, and what is exposed then.
fn applied(run: &mut RingRun, event: RingEvent) -> Result<(bool, u32), Fail> {
    match run.apply(event) {
        Ok(taken) => Ok((taken, run.exposed().units())),
        Err(_) => Err(Fail::new("no memory")),
    }
}

/// The event is taken or not, and so much is exposed then.
fn is_applied(
    rt: &impl Abort,
    run: &mut RingRun,
    event: RingEvent,
    taken: bool,
    exposed: u32,
) -> Result<(), Fail> {
    assert_eq!(rt; applied(run, event)?, (taken, exposed), "{event:?}");
    Ok(())
}

/// Each event of the schedule is taken or not, and so much is exposed then.
fn are_applied(
    rt: &impl Abort,
    run: &mut RingRun,
    schedule: &[(RingEvent, bool, u32)],
) -> Result<(), Fail> {
    for (event, taken, exposed) in schedule {
        is_applied(rt, run, *event, *taken, *exposed)?;
    }
    Ok(())
}

#[test]
fn who_comes_first_exposes_who_was_ready(rt: HostRuntime) -> Result<(), Fail> {
    let Ok(mut run) = RingRun::make(rt.alloc(), Lsn::new(4), 1024) else {
        return Err(Fail::new("no memory"));
    };
    // The second is marked first, finds nothing marked at exposed, and goes on.
    let schedule = [
        (RingEvent::Reserve { by: 1, n: 2 }, true, 4),
        (RingEvent::Reserve { by: 2, n: 3 }, true, 4),
        (RingEvent::Fill { by: 2 }, true, 4),
        (RingEvent::Fill { by: 2 }, true, 4),
        (RingEvent::Fill { by: 2 }, true, 4),
        (RingEvent::Mark { by: 2 }, true, 4),
        (RingEvent::LookExposed { by: 2 }, true, 4),
        (RingEvent::LookMark { by: 2 }, true, 4),
        (RingEvent::Raise { by: 2 }, false, 4),
        (RingEvent::Fill { by: 1 }, true, 4),
        (RingEvent::Fill { by: 1 }, true, 4),
        (RingEvent::Mark { by: 1 }, true, 4),
        (RingEvent::LookExposed { by: 1 }, true, 4),
        (RingEvent::LookMark { by: 1 }, true, 4),
        (RingEvent::Raise { by: 1 }, true, 6),
        (RingEvent::LookMark { by: 1 }, true, 6),
        (RingEvent::Raise { by: 1 }, true, 9),
        (RingEvent::LookMark { by: 1 }, true, 9),
        (RingEvent::Raise { by: 1 }, false, 9),
        (RingEvent::Reserve { by: 1, n: 257 }, false, 9),
        (RingEvent::Flushed { to: Lsn::new(8) }, false, 9),
        (RingEvent::Flushed { to: Lsn::new(6) }, true, 9),
    ];
    are_applied(&rt, &mut run, &schedule)?;
    assert_eq!(rt; run.tail().units(), 9);
    assert_eq!(rt; run.durable().units(), 6);
    Ok(())
}

#[test]
fn a_lost_raise_is_an_event(rt: HostRuntime) -> Result<(), Fail> {
    let Ok(mut run) = RingRun::make(rt.alloc(), Lsn::new(4), 1024) else {
        return Err(Fail::new("no memory"));
    };
    // The first is about to raise exposed when the second raises it past both.
    let schedule = [
        (RingEvent::Reserve { by: 1, n: 2 }, true, 4),
        (RingEvent::Reserve { by: 2, n: 3 }, true, 4),
        (RingEvent::Fill { by: 1 }, true, 4),
        (RingEvent::Fill { by: 1 }, true, 4),
        (RingEvent::Fill { by: 2 }, true, 4),
        (RingEvent::Fill { by: 2 }, true, 4),
        (RingEvent::Fill { by: 2 }, true, 4),
        (RingEvent::Mark { by: 1 }, true, 4),
        (RingEvent::LookExposed { by: 1 }, true, 4),
        (RingEvent::LookMark { by: 1 }, true, 4),
        (RingEvent::Mark { by: 2 }, true, 4),
        (RingEvent::LookExposed { by: 2 }, true, 4),
        (RingEvent::LookMark { by: 2 }, true, 4),
        (RingEvent::Raise { by: 2 }, true, 6),
        (RingEvent::LookMark { by: 2 }, true, 6),
        (RingEvent::Raise { by: 2 }, true, 9),
        (RingEvent::LookMark { by: 2 }, true, 9),
        // Exposed has moved, so nothing is written, and the first looks on from there.
        (RingEvent::Raise { by: 1 }, true, 9),
        (RingEvent::LookMark { by: 1 }, true, 9),
        (RingEvent::Raise { by: 1 }, false, 9),
        (RingEvent::Mark { by: 1 }, false, 9),
    ];
    are_applied(&rt, &mut run, &schedule)
}

/// Reserves so many units, which there is room for, and answers their base.
fn reserved(log: &mut RingLog, n: u32) -> Result<Lsn, Fail> {
    let base = log.tail();
    if !log.has_room(n) {
        return Err(Fail::new("no room"));
    }
    match log.reserve(n) {
        Ok(()) => Ok(base),
        Err(_) => Err(Fail::new("no memory")),
    }
}

/// Raises exposed from `base`, where the reservation there is marked, and answers what is exposed then.
fn raised(log: &mut RingLog, base: Lsn) -> u32 {
    if log.is_marked(base) {
        log.raise(base);
    }
    log.exposed().units()
}

#[test]
fn a_log_by_its_bases(rt: HostRuntime) -> Result<(), Fail> {
    let mut log = RingLog::make(rt.alloc(), Lsn::new(4), 1024);
    let first = reserved(&mut log, 2)?;
    let second = reserved(&mut log, 3)?;
    assert!(rt; log.fill(second) && log.fill(second) && log.fill(second));
    assert!(rt; !log.fill(second));
    assert!(rt; !log.mark(first) && log.mark(second));
    // The second is marked before the first, and exposed is not at it.
    assert_eq!(rt; raised(&mut log, first), 4);
    assert_eq!(rt; raised(&mut log, second), 4);
    assert!(rt; log.fill(first) && log.fill(first) && log.mark(first));
    assert_eq!(rt; raised(&mut log, first), 6);
    assert_eq!(rt; raised(&mut log, second), 9);
    assert!(rt; !log.has_room(257));
    assert!(rt; !log.flush(Lsn::new(8)) && log.flush(Lsn::new(6)));
    assert_eq!(rt; (log.tail().units(), log.durable().units()), (9, 6));
    Ok(())
}
