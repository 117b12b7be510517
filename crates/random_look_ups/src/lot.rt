//! Numbers drawn by lot.
ghost use Rattle.std.specs.Prelude.{◌<◌};

/// Draws the same numbers in each run: each is 48271 times the one before it, modulo 2147483647, and the first is 48271.
#[derive(Drop)]
pub struct Lot {
    last: u32,
}

impl Lot {
    /// Has drawn nothing.
    pub fn new() -> Lot {
        Lot { last: 1 }
    }

    /// The next number, as one below `count`.
    pub fn draw(&mut self, count: u64) -> u64
        requires { 0 < count }
        ensures { result < count }
    {
        let next = u64::from(self.last) * 48271 % 2147483647;
        self.last = next as u32;
        next % count
    }
}
