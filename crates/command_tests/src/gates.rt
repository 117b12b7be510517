//! Gates that hold a worker at a place until others have come by.

use log_disk::{Gate, Place};
use std::process::Abort;
use std::sync::atomic::{AtomicBool, AtomicU32, Ordering};
use std::thread::yield_now;

/// How often a thread that is held looks whether it may go on.
const MOST_TURNS: u32 = 1000000;

/// How many have come by, and whether one that waited for them gave up.
#[derive(Drop)]
pub(crate) struct Arrivals {
    count: AtomicU32,
    gave_up: AtomicBool,
}

impl Arrivals {
    pub fn none() -> Arrivals {
        Arrivals {
            count: AtomicU32::new(0),
            gave_up: AtomicBool::new(false),
        }
    }

    pub fn count(&self) -> u32 {
        self.count.load(Ordering::SeqCst)
    }

    /// One more has come by. Answers how many had before.
    fn arrive(&self) -> u32 {
        self.count.fetch_add(1, Ordering::SeqCst)
    }

    /// Holds the caller until so many have come by.
    fn wait_for(&self, count: u32) {
        for _ in 0..MOST_TURNS {
            if self.count() >= count {
                return;
            }
            yield_now();
        }
        self.gave_up.store(true, Ordering::SeqCst);
    }

    /// So many have come by, and whoever waited for them saw it.
    fn have_come(&self, rt: &impl Abort, count: u32) {
        assert!(rt;
            !self.gave_up.load(Ordering::SeqCst),
            "no worker went past the one that was held"
        );
        let come = self.count();
        assert!(rt; come >= count, "{come} came by, and not {count}");
    }
}

/// Holds the worker that takes a transfer first until another has ended one.
#[derive(Drop)]
pub(crate) struct OneWaits {
    taken: Arrivals,
    ended: Arrivals,
}

impl OneWaits {
    pub fn new() -> OneWaits {
        OneWaits {
            taken: Arrivals::none(),
            ended: Arrivals::none(),
        }
    }

    /// So many transfers were taken and ended, and the worker that was held went on behind another.
    pub fn has_held_one(&self, rt: &impl Abort, count: u32) {
        self.ended.have_come(rt, count);
        let taken = self.taken.count();
        assert!(rt; taken == count, "{taken} were taken");
    }
}

impl Gate for OneWaits {
    fn at(&self, _worker: u32, place: Place) {
        match place {
            Place::JobTaken => {
                if self.taken.arrive() == 0 {
                    self.ended.wait_for(1);
                }
            }
            Place::JobEnded => {
                self.ended.arrive();
            }
            _ => {}
        }
    }
}

/// Holds the one of two workers that takes a third account for a transfer until so many transfers have ended.
#[derive(Drop)]
pub(crate) struct LongOneWaits {
    locked: [AtomicU32; 2],
    ended: Arrivals,
    count: u32,
}

impl LongOneWaits {
    pub fn until(count: u32) -> LongOneWaits {
        LongOneWaits {
            locked: [AtomicU32::new(0), AtomicU32::new(0)],
            ended: Arrivals::none(),
            count,
        }
    }

    /// So many transfers ended while one was held, and that one behind them.
    pub fn has_held_one(&self, rt: &impl Abort) {
        self.ended.have_come(rt, self.count.saturating_add(1));
    }
}

impl Gate for LongOneWaits {
    fn at(&self, worker: u32, place: Place) {
        let Some(locked) = self.locked.get(worker as usize) else {
            return;
        };
        match place {
            Place::JobTaken => locked.store(0, Ordering::SeqCst),
            Place::Locked => {
                if locked.fetch_add(1, Ordering::SeqCst) == 2 {
                    self.ended.wait_for(self.count);
                }
            }
            Place::JobEnded => {
                self.ended.arrive();
            }
            _ => {}
        }
    }
}

/// Holds each worker at its first look for room until two stand there, and counts those that joined a group.
#[derive(Drop)]
pub(crate) struct BothLook {
    looked: Arrivals,
    joined: Arrivals,
}

impl BothLook {
    pub fn new() -> BothLook {
        BothLook {
            looked: Arrivals::none(),
            joined: Arrivals::none(),
        }
    }

    /// Both looked before either went on, and one of them joined a group.
    pub fn have_met(&self, rt: &impl Abort) {
        self.looked.have_come(rt, 2);
        self.joined.have_come(rt, 1);
    }
}

impl Gate for BothLook {
    fn at(&self, _worker: u32, place: Place) {
        match place {
            Place::Looked => {
                if self.looked.arrive() < 2 {
                    self.looked.wait_for(2);
                }
            }
            Place::Joined => {
                self.joined.arrive();
            }
            _ => {}
        }
    }
}

/// Counts the transfers that were taken.
#[derive(Drop)]
pub(crate) struct Takes {
    taken: Arrivals,
}

impl Takes {
    pub fn new() -> Takes {
        Takes {
            taken: Arrivals::none(),
        }
    }

    /// Some transfer was taken, and at most so many.
    pub fn are_at_most(&self, rt: &impl Abort, most: u32) {
        let taken = self.taken.count();
        assert!(rt;
            taken >= 1 && taken <= most,
            "{taken} were taken, at most {most} might be"
        );
    }
}

impl Gate for Takes {
    fn at(&self, _worker: u32, place: Place) {
        if place == Place::JobTaken {
            self.taken.arrive();
        }
    }
}
