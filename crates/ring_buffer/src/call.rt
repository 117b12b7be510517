//! What names the call that a seat has under way. Each value is for the seat that got it.
ghost use Rattle.std.specs.Prelude.{◌≡◌, ◌+◌, ◌≤◌};
ghost use Rattle.lsn_space.specs.declared.lsn.TheConstants.{LAST};

use lsn_space::Lsn;

/// The tail and durable as a seat's last two steps loaded them.
#[derive(Clone, Copy, Debug)]
pub struct Look {
    pub tail: Lsn,
    pub durable: Lsn,
}

/// The range that a seat has reserved and not yet filled.
#[derive(Drop)]
pub struct Range {
    start: Lsn,
    size: u32,
    ghost within: { start + size ≤ LAST },
}

impl Range {
    pub(crate) fn new(start: Lsn, size: u32) -> Range
        requires { start + size ≤ LAST }
        ensures { (result.start ≡ start) × (result.size ≡ size) }
    {
        Range { start, size }
    }

    /// The LSN of the first unit.
    pub fn start(&self) -> Lsn
        ensures { result ≡ self.now.start }
    {
        self.start
    }

    /// The number of units.
    pub fn size(&self) -> u32
        ensures { result ≡ self.now.size }
    {
        self.size
    }

    /// The LSN behind the last unit.
    pub fn end(&self) -> Lsn
        ensures { result ≡ self.now.start + self.now.size }
    {
        Lsn::new(self.start.units() + self.size)
    }
}

/// The range that a seat has reserved and filled, and not yet released.
#[derive(Drop)]
pub struct Filled {
    pub(crate) range: Range,
}
