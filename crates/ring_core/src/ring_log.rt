//! The log of the ring: all reserved ranges, and the tail, exposed and durable.

ghost use Rattle.std.specs.Prelude.{◌≡◌, ◌<◌, ◌↔◌, length, IsTrue, IfSome, OnOk, OnErr, slice_get, option_and_then};
ghost use Rattle.std.specs.Bool.{OnTrue, OnFalse};
ghost use Rattle.std.specs.List.{find};
ghost use Rattle.std.specs.Option.{IsSomeAnd};
ghost use Rattle.ring_core.specs.RingLog.{HasRoom, HasUnfilled, IsFull, MayFlush, IsLogBoundary, is_at, is_marked, end_at, empty_log, reserved, filled, marked, raised, flushed};

use crate::range::{RingRange, ends_at, index_at};
use lsn_space::{LAST, Lsn, NoMemory};
use std::alloc::Global;
use std::marker::Model;

/// The log in the ring by its bases: what is reserved, filled, marked as released, exposed and durable, whoever does it. Each call
/// is one change, whose condition is its caller's to know or its answer.
#[derive(Drop)]
pub struct RingLog {
    start: u32,
    ring: u32,
    ranges: Vec<RingRange>,
    tail: u32,
    exposed: u32,
    durable: u32,
}

impl Model for RingLog {
    ghost use Rattle.ring_core.specs.RingLog.{RingLog as LogInRing};

    ghost Value = { LogInRing };

    ghost use Rattle.ring_core.specs.LogLaws.{IsSoundLog};
    ghost use Rattle.ring_core.specs.LogView.{log_in};

    ghost view = { log_in };

    ghost invariant = { λ l. IsSoundLog (log_in l) };
}

impl RingLog {
    /// An empty log from `start` on, with a ring of `ring` units. It keeps the allocator.
    pub fn make(alloc: Global, start: Lsn, ring: u32) -> RingLog
        ensures { result ≡ empty_log start ring }
    {
        let start = start.units();
        RingLog {
            start,
            ring,
            ranges: Vec::new(alloc),
            tail: start,
            exposed: start,
            durable: start,
        }
    }

    /// The length of the ring.
    pub fn ring(&self) -> u32
        ensures { result ≡ self.now.ring }
    {
        self.ring
    }

    /// Everything below is reserved.
    pub fn tail(&self) -> Lsn
        ensures { result ≡ self.now.tail }
    {
        Lsn::new(self.tail)
    }

    /// Everything below is filled and marked.
    pub fn exposed(&self) -> Lsn
        ensures { result ≡ self.now.exposed }
    {
        Lsn::new(self.exposed)
    }

    /// Everything below is durable.
    pub fn durable(&self) -> Lsn
        ensures { result ≡ self.now.durable }
    {
        Lsn::new(self.durable)
    }

    /// Whether `n` units may be reserved. The sums may pass 32 bits.
    pub fn has_room(&self, n: u32) -> bool
        ensures { IsTrue result ↔ HasRoom self.now n }
    {
        let end = u64::from(self.tail) + u64::from(n);
        1 <= n
            && n <= self.ring / 4
            && end <= u64::from(LAST)
            && end <= u64::from(self.durable) + u64::from(self.ring)
    }

    /// Reserves the next `n` units, at the tail.
    pub fn reserve(&mut self, n: u32) -> Result<(), NoMemory>
        requires { HasRoom self.old n }
        ensures ok { OnOk result (self.new ≡ reserved self.old n) }
        ensures err { OnErr result (self.new ≡ self.old) }
    {
        self.ranges.reserve(1).map_err(|_| NoMemory)?;
        self.ranges.push_reserved(RingRange::new(self.tail, n));
        self.tail += n;
        Ok(())
    }

    /// Fills the next unit of the reservation at `base`, where one is left, and answers whether one was.
    pub fn fill(&mut self, base: Lsn) -> bool
        ensures left { IsTrue result ↔ IsSomeAnd (find (is_at base) self.old.reservations) HasUnfilled }
        ensures filled { OnTrue result (self.new ≡ filled self.old base) }
        ensures none { OnFalse result (self.new ≡ self.old) }
    {
        let Some(at) = self.index_of(base) else {
            return false;
        };
        let range = &mut self.ranges[at];
        range.fill()
    }

    /// Marks the reservation at `base` as released, where it is full, and answers whether it is.
    pub fn mark(&mut self, base: Lsn) -> bool
        ensures full { IsTrue result ↔ IsSomeAnd (find (is_at base) self.old.reservations) IsFull }
        ensures marked { OnTrue result (self.new ≡ marked self.old base) }
        ensures none { OnFalse result (self.new ≡ self.old) }
    {
        let Some(at) = self.index_of(base) else {
            return false;
        };
        let range = &mut self.ranges[at];
        range.mark()
    }

    /// Whether a reservation starts at `place` and is marked.
    pub fn is_marked(&self, place: Lsn) -> bool
        ensures { result ≡ is_marked place self.now.reservations }
    {
        match self.index_of(place) {
            Some(at) => {
                let range = &self.ranges[at];
                range.is_released()
            }
            None => false,
        }
    }

    /// Raises exposed from `base` to the end of the reservation there, which is marked; where exposed is no more at `base`, it stays.
    pub fn raise(&mut self, base: Lsn)
        requires { IsTrue (is_marked base self.old.reservations) }
        ensures { self.new ≡ raised self.old base }
    {
        if self.exposed == base.units() {
            self.exposed = self.end_at(base);
        }
    }

    /// Everything below `to` is durable, where it is exposed, no less than before, and whole reservations. Answers whether it is.
    pub fn flush(&mut self, to: Lsn) -> bool
        ensures may { IsTrue result ↔ MayFlush self.old to }
        ensures flushed { OnTrue result (self.new ≡ flushed self.old to) }
        ensures none { OnFalse result (self.new ≡ self.old) }
    {
        let place = to.units();
        if place < self.durable || self.exposed < place || !self.is_boundary(place) {
            return false;
        }
        self.durable = place;
        true
    }

    /// Whether one of the reservations ends at `place`, or the log starts there.
    fn is_boundary(&self, place: u32) -> bool
        ensures { IsTrue result ↔ IsLogBoundary self.now place }
    {
        place == self.start || ends_at(&self.ranges, place)
    }

    /// Where the reservation at `base` ends; `base`, where there is none.
    fn end_at(&self, base: Lsn) -> u32
        ensures { result ≡ end_at base self.now.reservations }
    {
        match self.index_of(base) {
            Some(at) => {
                let range = &self.ranges[at];
                range.end() as u32
            }
            None => base.units(),
        }
    }

    /// The index of the reservation at `base`.
    fn index_of(&self, base: Lsn) -> Option<usize>
        ensures within { IfSome result (λ at. at < length self.now.reservations) }
        ensures found { find (is_at base) self.now.reservations ≡ option_and_then (slice_get self.now.reservations) result }
    {
        index_at(&self.ranges, base)
    }
}
