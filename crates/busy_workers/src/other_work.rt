//! The hook of workers that have other work.
use log_disk::{Gate, Place};
use std::hint::spin_loop;
use std::sync::atomic::{AtomicU32, Ordering};
use std::thread::sleep;
use std::time::{Clock, Duration, Instant};

/// Of so many transfers a worker is held up in one.
const EACH: u32 = 2_000;

/// No worker has this number.
const NOBODY: u32 = u32::MAX;

/// How many spins lie between two looks at the clock, and how many looks other work takes at most.
const SPINS: u32 = 4;

const LOOKS: u32 = 4_096;

/// Other work before each transfer, and a worker that is held up right behind its reservation now and then.
#[derive(Drop)]
pub struct OtherWork<'a, C> {
    clock: &'a C,
    /// How long the other work is, in nanoseconds.
    busy: u64,
    /// How long a worker is held up, in nanoseconds.
    held: u64,
    /// How many transfers were taken, modulo 2^32. It is counted only where workers are held up.
    taken: AtomicU32,
    /// The worker that is to be held up at its next reservation.
    chosen: AtomicU32,
}

impl<'a, C: Clock> OtherWork<'a, C> {
    /// Nothing is taken yet.
    pub fn new(clock: &'a C, busy: u64, held: u64) -> OtherWork<'a, C> {
        OtherWork {
            clock,
            busy,
            held,
            taken: AtomicU32::new(0),
            chosen: AtomicU32::new(NOBODY),
        }
    }

    /// The worker of each 2,000th transfer is to be held up.
    fn choose(&self, worker: u32) {
        if self.taken.fetch_add(1, Ordering::Relaxed) % EACH == EACH - 1 {
            self.chosen.store(worker, Ordering::Relaxed);
        }
    }

    /// Holds this worker up, if it is chosen: it sleeps, as one does that loses its processor.
    fn hold_up(&self, worker: u32) {
        if self.chosen.load(Ordering::Relaxed) == worker {
            self.chosen.store(NOBODY, Ordering::Relaxed);
            sleep(self.clock, Duration::from_nanos(self.held));
        }
    }
}

impl<'a, C: Clock> Gate for OtherWork<'a, C> {
    #[inline(always)]
    fn at(&self, worker: u32, place: Place) {
        match place {
            Place::JobTaken => {
                if self.busy > 0 {
                    work(self.clock, self.busy);
                }
                if self.held > 0 {
                    self.choose(worker);
                }
            }
            Place::Placed if self.held > 0 => self.hold_up(worker),
            _ => {}
        }
    }
}

/// Works for so many nanoseconds on nothing that anybody shares.
fn work(clock: &impl Clock, nanos: u64) {
    let Ok(began) = Instant::now(clock) else {
        return;
    };
    for _ in 0..LOOKS {
        for _ in 0..SPINS {
            spin_loop();
        }
        let Ok(now) = Instant::now(clock) else {
            return;
        };
        if now.duration_since(began).as_nanos() >= u128::from(nanos) {
            return;
        }
    }
}
