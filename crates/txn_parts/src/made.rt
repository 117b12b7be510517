//! How far a worker has come in the log.
use lsn_space::Lsn;

/// How many units a worker has inserted, modulo 2^32, and where the last of them ends.
#[derive(Clone, Copy, Debug)]
pub struct Made {
    pub units: u32,
    pub end: Lsn,
}

impl Made {
    /// Nothing yet.
    pub fn new() -> Made {
        Made {
            units: 0,
            end: Lsn::new(0),
        }
    }

    /// So many more, which end there.
    #[inline(always)]
    pub fn add(&mut self, units: u32, end: Lsn) {
        self.units = self.units.wrapping_add(units);
        self.end = end;
    }
}
