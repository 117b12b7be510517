//! The rests of a thread that waits for another.

ghost use Rattle.std.specs.Prelude.{◌≡◌, ◌≤◌, ◌+◌, ◌*◌, ◌-◌};
ghost use Rattle.idle_backoff.specs.declared.idling.TheConstants.{SLEEP, SHORT_SLEEPS, MORE};

use crate::nanos::nanos_from;
use crate::naps::Nap;
use crossbeam_utils::Backoff;
use std::cell::Cell;
use std::thread::yield_now;
use std::time::{Clock, Instant};

/// How many rests at the start of a wait are spun: an account is mostly free again within a microsecond.
const SPINS: u32 = 7;

/// How long a thread stays awake behind them, and lets others run, in nanoseconds: as long as a flush takes where the log lies in memory, with
/// the daemon's doze before it, and little beside a disk's.
const AWAKE: u64 = 40_000;

/// How far it is trusted at most that a wait is over by then: so many waits may be longer, one behind another, before threads stay awake no
/// more.
const MOST_TRUST: u32 = 8;

/// Behind so many waits that were not stayed awake for, one is: so it is seen where waits have become short.
const TRIAL: u32 = 32;

/// How long the first sleeps of a thread are that nobody wakes, in microseconds.
const SLEEP: u64 = 20;

/// How many these are. Each behind them is longer by `MORE` than the one before it, up to the longest of all sleeps, so that a long wait takes
/// little of a processor, and ends little late.
const SHORT_SLEEPS: u32 = 8;

const MORE: u64 = 10;

/// The rests of a thread that waits again and again. At first it spins; then, where it trusts that such waits are short, it stays awake for a
/// moment; then it is tired, and sleeps.
#[derive(Drop)]
pub struct IdleBackoff {
    backoff: Backoff,
    /// How often it rested in this wait.
    rests: Cell<u32>,
    /// When it was awake first behind the spins.
    awake: Cell<Option<Instant>>,
    tired: Cell<bool>,
    /// How often it slept since it is.
    sleeps: Cell<u32>,
    trust: Cell<u32>,
    /// How many waits it didn't stay awake for, one behind another.
    slept: Cell<u32>,
}

impl IdleBackoff {
    /// The first wait begins.
    pub fn new() -> IdleBackoff {
        IdleBackoff {
            backoff: Backoff::new(),
            rests: Cell::new(0),
            awake: Cell::new(None),
            tired: Cell::new(false),
            sleeps: Cell::new(0),
            trust: Cell::new(MOST_TRUST),
            slept: Cell::new(0),
        }
    }

    /// Rests once, and returns.
    pub fn idle(&self, clock: &impl Clock) {
        if self.tired.get() {
            self.nap(clock);
            return;
        }
        let rests = self.rests.get();
        self.rests.set(rests.saturating_add(1));
        if rests < SPINS {
            self.backoff.spin();
        } else {
            self.stay_awake(clock);
        }
    }

    /// Whether it has been awake in this wait for as long as that is worth it. Who can be woken is better asleep now.
    pub fn is_tired(&self) -> bool {
        self.tired.get()
    }

    /// What was waited for has come, and the next wait begins.
    pub fn reset(&self) {
        let rests = self.rests.get();
        if rests == 0 {
            return;
        }
        if rests > SPINS {
            self.learn();
        }
        self.rests.set(0);
        self.awake.set(None);
        self.tired.set(false);
        self.sleeps.set(0);
        self.backoff.reset();
    }

    /// Lets others run; tired, where it did so for long enough or such waits aren't trusted to be short.
    fn stay_awake(&self, clock: &impl Clock) {
        if !self.trusts() {
            self.tired.set(true);
            return;
        }
        yield_now();
        // Where no time can be read there is nothing to tell how long it was awake.
        let Ok(now) = Instant::now(clock) else {
            self.tired.set(true);
            return;
        };
        match self.awake.get() {
            Some(since) => self.tired.set(nanos_from(since, now) > AWAKE),
            None => self.awake.set(Some(now)),
        }
    }

    fn nap(&self, clock: &impl Clock) {
        let sleeps = self.sleeps.get();
        self.sleeps.set(sleeps.saturating_add(1));
        nap_behind(sleeps).take(clock);
    }

    /// Whether it stays awake in this wait.
    fn trusts(&self) -> bool {
        self.trust.get() > 0 || self.slept.get() >= TRIAL
    }

    /// This wait was longer than the spins, and is over: it was short where the thread isn't tired.
    fn learn(&self) {
        let trust = self.trust.get();
        if !self.tired.get() {
            self.trust.set(if trust == 0 {
                MOST_TRUST
            } else {
                more_trust(trust)
            });
            self.slept.set(0);
        } else if self.trusts() {
            self.trust.set(trust.saturating_sub(1));
            self.slept.set(0);
        } else {
            self.slept.set(self.slept.get().saturating_add(1));
        }
    }
}

fn more_trust(trust: u32) -> u32 {
    if trust < MOST_TRUST { trust + 1 } else { trust }
}

/// How long a thread sleeps behind so many sleeps of this wait.
fn nap_behind(sleeps: u32) -> Nap
    ensures first { sleeps ≤ SHORT_SLEEPS → result.nanos ≡ 1000 * SLEEP }
    ensures next { result.nanos ≤ 1000 * (SLEEP + MORE * (sleeps - SHORT_SLEEPS)) }
{
    let more = u64::from(sleeps.saturating_sub(SHORT_SLEEPS));
    Nap::new(1_000 * (SLEEP + MORE * more))
}
