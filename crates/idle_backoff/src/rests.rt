//! The rest of a worker between two transfers. Where workers meet, each step moves a line of memory from one processor to another; while all
//! but one rest, that one has all lines. So a worker rests where the log grew faster while the worker was alone than it grows while workers
//! meet. The measure is the log's growth, which all share, and not the worker's own speed: who rests loses speed, and the others win it.

ghost use Rattle.std.specs.Prelude.{◌≡◌, ◌≤◌, ◌<◌, ◌*◌, ◌-◌, ◌/◌};
ghost use Rattle.idle_backoff.specs.declared.rests.TheConstants.{LEAST, MOST, RUN};

use crate::nanos::nanos_from;
use crate::naps::Nap;
use std::hint::spin_loop;
use std::time::{Clock, Instant};

/// How long the first rest is, in nanoseconds.
const FIRST: u64 = 1_000;

/// How long a rest is at least, and at most, in nanoseconds.
const LEAST: u64 = 500;

const MOST: u64 = 200_000;

/// From this length on a rest is slept, so that another thread has the processor.
const SLEPT: u64 = 20_000;

/// So many transfers are to lie between two rests: where there were fewer, the next rest is longer.
const RUN: u32 = 128;

/// Behind so many transfers without a loss no clock is read any more.
const WATCHED: u32 = 256;

/// Of so many losses one brings a rest where it isn't known that resting pays: so the others see how fast the log grows without this worker.
const TRIALS: u32 = 64;

/// How long such a rest is, in nanoseconds.
const TRIED: u64 = 4_000;

/// How many spins lie between two looks at the clock, and how many looks a rest takes at most.
const SPINS: u32 = 8;

const LOOKS: u32 = 4_096;

/// When a worker rests, and how long.
#[derive(Drop)]
pub struct Rests {
    growth: Growth,
    /// How long the next rest is, in nanoseconds.
    length: u64,
    /// How many transfers were made since the last one.
    run: u32,
    losses: u32,
    /// For how many transfers the growth is still measured.
    watch: u32,
    ghost bounded: { (LEAST ≤ length) × (length ≤ MOST) },
}

impl Rests {
    /// Nothing is known.
    pub fn new() -> Rests {
        Rests {
            growth: Growth::new(),
            length: FIRST,
            run: 0,
            losses: 0,
            watch: 0,
        }
    }

    /// Rests where that pays, behind a transfer that ended there and lost so many exchanges. `put` is how many units the worker has inserted,
    /// modulo 2^32. A worker that loses nothing reads no clock.
    #[inline(always)]
    pub fn behind(&mut self, clock: &impl Clock, put: u32, end: u32, lost: u32) {
        if lost == 0 && self.watch == 0 {
            self.run = self.run.saturating_add(1);
            return;
        }
        self.watch_growth(clock, put, end, lost > 0);
    }

    #[inline(never)]
    fn watch_growth(&mut self, clock: &impl Clock, put: u32, end: u32, lost: bool) {
        self.growth.pass(clock, put, end);
        if lost {
            self.watch = WATCHED;
            self.rest(clock);
        } else {
            self.watch = self.watch.saturating_sub(1);
            self.run = self.run.saturating_add(1);
        }
    }

    /// Behind a loss.
    fn rest(&mut self, clock: &impl Clock) {
        self.losses = self.losses.wrapping_add(1);
        if self.growth.is_faster_alone() {
            self.length = next_length(self.length, self.run);
            pass(clock, self.length);
        } else if self.losses % TRIALS == 1 {
            pass(clock, TRIED);
        } else {
            return;
        }
        self.run = 0;
        self.growth.restart();
    }
}

/// How long the next rest is, where the last one was so long, and so many transfers were made since.
fn next_length(length: u64, run: u32) -> u64
    ensures longer { run < RUN → 2 * length ≤ MOST → result ≡ 2 * length }
    ensures longest { run < RUN → MOST ≤ 2 * length → result ≡ MOST }
    ensures shorter { RUN ≤ run → LEAST ≤ length - length / 4 → result ≡ length - length / 4 }
    ensures shortest { RUN ≤ run → length - length / 4 ≤ LEAST → result ≡ LEAST }
{
    if run < RUN {
        lesser(length.saturating_mul(2), MOST)
    } else {
        greater(length - length / 4, LEAST)
    }
}

/// Rests for so many nanoseconds. Where the clock can't be read the rest is short.
fn pass(clock: &impl Clock, nanos: u64) {
    if nanos >= SLEPT {
        Nap::new(nanos).take(clock);
    } else if let Ok(began) = Instant::now(clock) {
        spin_until(clock, began, nanos);
    }
}

fn spin_until(clock: &impl Clock, began: Instant, nanos: u64) {
    'looks: for _ in 0..LOOKS {
        let Ok(now) = Instant::now(clock) else {
            return;
        };
        if nanos_from(began, now) >= nanos {
            return;
        }
        for _ in 0..SPINS {
            spin_loop();
        }
    }
}

/// How many transfers one measure of the growth takes.
const WINDOW: u32 = 4;

/// So many parts of a nanosecond are counted.
const PARTS: u64 = 256;

/// What took longer isn't counted, in nanoseconds: the worker didn't work meanwhile.
const LONGEST: u64 = 1_000_000_000;

/// How long the whole log takes for a unit, in parts of a nanosecond: while the worker was alone in it, and while others inserted too. 0: not
/// known.
#[derive(Drop)]
struct Growth {
    alone: u64,
    shared: u64,
    /// When the measure that is under way began, where the log and the worker's own units stood then, and how many transfers it takes yet.
    began: Option<Instant>,
    from: u32,
    put: u32,
    left: u32,
}

impl Growth {
    fn new() -> Growth {
        Growth {
            alone: 0,
            shared: 0,
            began: None,
            from: 0,
            put: 0,
            left: 0,
        }
    }

    /// Behind a transfer.
    fn pass(&mut self, clock: &impl Clock, put: u32, end: u32) {
        if self.left > 0 {
            self.left -= 1;
        }
        if self.left > 0 {
            return;
        }
        let Ok(now) = Instant::now(clock) else {
            return;
        };
        if let Some(began) = self.began {
            let grown = end.saturating_sub(self.from);
            let own = put.wrapping_sub(self.put);
            self.learn(nanos_from(began, now), u64::from(grown), u64::from(own));
        }
        self.began = Some(now);
        self.from = end;
        self.put = put;
        self.left = WINDOW;
    }

    /// What was under way is dropped: the worker rested.
    fn restart(&mut self) {
        self.began = None;
        self.left = 0;
    }

    /// In this time the log grew by so many units, of which so many are the worker's own. Alone: by these. Shared: by half as many again or
    /// more. What lies between is neither.
    fn learn(&mut self, nanos: u64, grown: u64, own: u64) {
        if grown == 0 || nanos > LONGEST {
            return;
        }
        let each = PARTS.saturating_mul(nanos) / grown;
        if grown <= own {
            self.alone = nearer(self.alone, each);
        } else if grown - own >= own / 2 {
            self.shared = nearer(self.shared, each);
        }
    }

    /// Whether the log grew faster while the worker was alone, by more than an eighth.
    fn is_faster_alone(&self) -> bool {
        self.alone > 0 && self.alone.saturating_add(self.alone / 8) < self.shared
    }
}

/// The mean with this value in it, for an eighth. A value counts as four means at most.
fn nearer(mean: u64, each: u64) -> u64 {
    if mean == 0 {
        return each;
    }
    let counted = lesser(each, mean.saturating_mul(4));
    (mean - mean / 8).saturating_add(counted / 8)
}

fn lesser(a: u64, b: u64) -> u64
    ensures first { a ≤ b → result ≡ a }
    ensures second { b ≤ a → result ≡ b }
{
    if a < b { a } else { b }
}

fn greater(a: u64, b: u64) -> u64
    ensures first { b ≤ a → result ≡ a }
    ensures second { a ≤ b → result ≡ b }
{
    if a < b { b } else { a }
}
