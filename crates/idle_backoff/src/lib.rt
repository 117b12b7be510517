//! How a thread passes the time while it waits for another, and how a worker rests where workers meet. Who waits stays awake for a moment,
//! where such waits are mostly over by then; who has nothing to do dozes.
#![tactic(auto)]

ghost use Rattle.std.specs.Prelude.{◌≡◌, ◌≤◌, ◌<◌, ◌*◌};
ghost use Rattle.idle_backoff.specs.declared.TheConstants.{DOZE, LONG_DOZE, MANY};

mod idling;
mod nanos;
mod naps;
mod numbers;
mod rests;

pub use idling::IdleBackoff;
use naps::Nap;
pub use numbers::{fixed_numbers, fixed_rests};
pub use rests::Rests;
use std::time::Clock;

/// How long a doze is, in microseconds: short beside a flush, and so long that other threads get on where processors are scarce.
const DOZE: u64 = 10;

/// How long it is where there was much to do: what comes meanwhile makes a batch that is worth a flush.
const LONG_DOZE: u64 = 60;

/// So many units are much. Workers that wait for the disk have less for a batch, and are not to wait longer.
const MANY: u32 = 256;

/// Sleeps for a moment, which is longer where the last batch had many units.
pub fn doze(clock: &impl Clock, batch: u32) {
    doze_behind(batch).take(clock);
}

fn doze_behind(batch: u32) -> Nap
    ensures short { batch < MANY → result.nanos ≡ 1000 * DOZE }
    ensures long { MANY ≤ batch → result.nanos ≡ 1000 * LONG_DOZE }
{
    Nap::new(1_000 * if batch < MANY { DOZE } else { LONG_DOZE })
}
