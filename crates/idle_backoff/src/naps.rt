//! A sleep has a length that is bounded: so whoever sleeps sees what it waits for little later than it came.
ghost use Rattle.std.specs.Prelude.{◌≡◌, ◌≤◌};
ghost use Rattle.std.specs.Duration.{as_nanos};
ghost use Rattle.idle_backoff.specs.declared.naps.TheConstants.{MOST_SLEEP};

use std::thread::sleep;
use std::time::{Clock, Duration};

/// How long a sleep is at most, in nanoseconds.
pub const MOST_SLEEP: u64 = 1_000_000;

/// One sleep.
#[derive(Drop)]
pub(crate) struct Nap {
    nanos: u64,
    ghost bounded: { nanos ≤ MOST_SLEEP },
}

impl Nap {
    /// A nap of so many nanoseconds, or of the most.
    pub(crate) fn new(nanos: u64) -> Nap
        ensures same { nanos ≤ MOST_SLEEP → result.nanos ≡ nanos }
        ensures most { MOST_SLEEP ≤ nanos → result.nanos ≡ MOST_SLEEP }
    {
        Nap {
            nanos: if nanos < MOST_SLEEP {
                nanos
            } else {
                MOST_SLEEP
            },
        }
    }

    /// Sleeps.
    pub(crate) fn take(&self, clock: &impl Clock) {
        sleep(clock, self.length());
    }

    fn length(&self) -> Duration
        ensures is { as_nanos result ≡ self.now.nanos }
        ensures bounded { as_nanos result ≤ MOST_SLEEP }
    {
        Duration::from_nanos(self.nanos)
    }
}
