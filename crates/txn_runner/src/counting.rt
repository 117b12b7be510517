//! What a worker counts of what it tells its hook.
use schedule_hook::{Gate, Place};
use std::cell::Cell;

/// The caller's hook, and how often since it was asked last the worker lost an exchange or found an account held.
#[derive(Drop)]
pub(crate) struct Counting<'a, G> {
    gate: &'a G,
    lost: Cell<u32>,
}

impl<'a, G> Counting<'a, G> {
    pub(crate) fn new(gate: &'a G) -> Counting<'a, G> {
        Counting {
            gate,
            lost: Cell::new(0),
        }
    }

    /// How often it was, and counts from 0 again.
    #[inline(always)]
    pub(crate) fn take_lost(&self) -> u32 {
        self.lost.replace(0)
    }
}

impl<'a, G: Gate> Gate for Counting<'a, G> {
    #[inline(always)]
    fn at(&self, worker: u32, place: Place) {
        if place == Place::Lost {
            self.lost.set(self.lost.get().saturating_add(1));
        }
        self.gate.at(worker, place);
    }
}
