//! How long idle threads sleep, by a clock that counts what it is asked to sleep.

use idle_backoff::{IdleBackoff, Rests, doze};
use std::cell::Cell;
use std::io;
use std::process::Abort;
use std::test::Fail;
use std::time::{Clock, Duration};

/// It goes on by a step at each look, and by what is slept.
#[derive(Drop)]
struct CountingClock {
    nanos: Cell<u64>,
    step: Cell<u64>,
    sleeps: Cell<u32>,
    last: Cell<u64>,
    longest: Cell<u64>,
}

impl CountingClock {
    fn new(step: u64) -> CountingClock {
        CountingClock {
            nanos: Cell::new(1_000),
            step: Cell::new(step),
            sleeps: Cell::new(0),
            last: Cell::new(0),
            longest: Cell::new(0),
        }
    }

    fn pass(&self, nanos: u64) {
        self.nanos.set(self.nanos.get().saturating_add(nanos));
    }
}

impl Clock for CountingClock {
    fn monotonic(&self) -> io::Result<Duration> {
        self.pass(self.step.get());
        Ok(Duration::from_nanos(self.nanos.get()))
    }

    fn since_1970(&self) -> io::Result<Duration> {
        self.monotonic()
    }

    fn sleep(&self, duration: Duration) {
        let nanos = u64::try_from(duration.as_nanos()).unwrap_or(u64::MAX);
        self.pass(nanos);
        self.sleeps.set(self.sleeps.get().saturating_add(1));
        self.last.set(nanos);
        if nanos > self.longest.get() {
            self.longest.set(nanos);
        }
    }
}

/// So many sleeps were asked for, the last and the longest of so many nanoseconds.
fn slept(rt: &impl Abort, clock: &CountingClock, sleeps: u32, last: u64, longest: u64) {
    assert_eq!(rt; clock.sleeps.get(), sleeps);
    assert_eq!(rt; clock.last.get(), last);
    assert_eq!(rt; clock.longest.get(), longest);
}

#[test]
fn a_doze_is_longer_behind_a_large_batch(rt: HostRuntime) {
    let clock = CountingClock::new(0);
    doze(&clock, 255);
    slept(&rt, &clock, 1, 10_000, 10_000);
    doze(&clock, 256);
    slept(&rt, &clock, 2, 60_000, 60_000);
}

/// Rests until the thread has slept so often.
fn rest_for(idle: &IdleBackoff, clock: &CountingClock, sleeps: u32) {
    'rests: for _ in 0..20_000 {
        if clock.sleeps.get() >= sleeps {
            return;
        }
        idle.idle(clock);
    }
}

/// The sleeps of a wait grow, and none is longer than a millisecond; those of the next wait begin anew.
#[test]
fn no_wait_sleeps_longer_than_a_millisecond(rt: HostRuntime) {
    let clock = CountingClock::new(30_000);
    let idle = IdleBackoff::new();
    rest_for(&idle, &clock, 9);
    slept(&rt, &clock, 9, 20_000, 20_000);
    rest_for(&idle, &clock, 10);
    slept(&rt, &clock, 10, 30_000, 30_000);
    rest_for(&idle, &clock, 10_000);
    slept(&rt, &clock, 10_000, 1_000_000, 1_000_000);
    idle.reset();
    rest_for(&idle, &clock, 10_001);
    slept(&rt, &clock, 10_001, 20_000, 1_000_000);
}

/// Transfers of three units each, behind each of which the log has grown by so many, in so many nanoseconds a look at the clock.
#[derive(Drop)]
struct Transfers {
    put: u32,
    end: u32,
}

impl Transfers {
    fn make(&mut self, rests: &mut Rests, clock: &CountingClock, grown: u32, lost: u32) {
        self.put = self.put.wrapping_add(3);
        self.end = self.end.saturating_add(grown);
        rests.behind(clock, self.put, self.end, lost);
    }
}

/// The log grows fast while the worker is alone, and slowly while others insert: then rests lengthen, to a fifth of a millisecond at most.
#[test]
fn rests_lengthen_to_a_fifth_of_a_millisecond(rt: HostRuntime) {
    let clock = CountingClock::new(100);
    let mut rests = Rests::new();
    let mut transfers = Transfers { put: 0, end: 0 };
    'alone: for i in 0..200 {
        transfers.make(&mut rests, &clock, 3, if i == 0 { 1 } else { 0 });
    }
    clock.step.set(100_000);
    'met: for _ in 0..2_000 {
        transfers.make(&mut rests, &clock, 6, 1);
    }
    assert!(rt; clock.sleeps.get() > 10);
    assert_eq!(rt; clock.longest.get(), 200_000);
    assert_eq!(rt; clock.last.get(), 200_000);
}
