//! A reserved range of the log: where it begins, its size, how much of it is filled, and whether it is marked.

ghost use Rattle.std.specs.Prelude.{◌≡◌, ◌+◌, ◌↔◌, IsTrue, true};
ghost use Rattle.std.specs.Bool.{OnTrue, OnFalse};
ghost use Rattle.std.specs.List.{position, list_any};
ghost use Rattle.ring_core.specs.RingLog.{HasUnfilled, IsFull, fresh, end_of, is_at};
ghost use Rattle.ring_core.specs.Rows.{is_end};

use lsn_space::Lsn;
use std::marker::Model;

/// A reserved range of the log.
#[derive(Drop)]
pub struct RingRange {
    base: u32,
    size: u32,
    filled: u32,
    released: bool,
}

impl Model for RingRange {
    ghost use Rattle.ring_core.specs.RingLog.{Reservation};

    ghost Value = { Reservation };

    ghost view = { λ r. record { base = r.base; size = r.size; filled = r.filled; released = r.released } };
}

impl RingRange {
    /// `size` units from `base` on, none of them filled.
    pub fn new(base: u32, size: u32) -> RingRange
        ensures { result ≡ fresh base size }
    {
        RingRange {
            base,
            size,
            filled: 0,
            released: false,
        }
    }

    pub fn base(&self) -> u32
        ensures { result ≡ self.now.base }
    {
        self.base
    }

    /// The first place after the range.
    pub fn end(&self) -> u64
        ensures { result ≡ end_of self.now }
    {
        u64::from(self.base) + u64::from(self.size)
    }

    pub fn is_released(&self) -> bool
        ensures { result ≡ self.now.released }
    {
        self.released
    }

    /// Fills the next unit, where one is left, and answers whether one was.
    pub fn fill(&mut self) -> bool
        ensures left { IsTrue result ↔ HasUnfilled self.old }
        ensures filled { OnTrue result (self.new ≡ record self.old { filled = self.old.filled + 1 }) }
        ensures none { OnFalse result (self.new ≡ self.old) }
    {
        let is_left = self.filled < self.size;
        if is_left {
            self.filled += 1;
        }
        is_left
    }

    /// Marks the range as released, where it is full, and answers whether it is.
    pub fn mark(&mut self) -> bool
        ensures full { IsTrue result ↔ IsFull self.old }
        ensures marked { OnTrue result (self.new ≡ record self.old { released = true }) }
        ensures none { OnFalse result (self.new ≡ self.old) }
    {
        let is_full = self.filled == self.size;
        if is_full {
            self.released = true;
        }
        is_full
    }
}

/// The index of the range that starts at `base`.
pub fn index_at(ranges: &[RingRange], base: Lsn) -> Option<usize>
    ensures { result ≡ position (is_at base) ranges.now }
{
    ranges.iter().position(|range| range.base() == base.units())
}

/// Whether one of the ranges ends at `place`.
pub fn ends_at(ranges: &[RingRange], place: u32) -> bool
    ensures { result ≡ list_any (is_end place) ranges.now }
{
    ranges.iter().any(|range| range.end() == u64::from(place))
}
