//! What a scan of a file answers.

ghost use Rattle.std.specs.Prelude.{◌≡◌, ◌≤◌, ◌<◌, ◌+◌, ◌*◌, ◌^◌};
ghost use Rattle.lsn_space.specs.declared.lsn.TheConstants.{LAST};

use crate::units::LogUnits;
use lsn_space::{LAST, Lsn, Opening};

/// Where a log goes on: the place in the file of the first gate that isn't open, and the LSN of the next unit.
#[derive(Clone, Copy, Debug, PartialEq, Eq)]
pub struct Tail {
    pub at: u64,
    pub next: Lsn,
}

impl Tail {
    /// The tail behind one more batch of so many units: its gate, four bytes for the count, and eight for each unit.
    pub(crate) fn after(&self, count: u32) -> Tail
        requires place { self.now.at + 5 + 8 * count < 2 ^ 64 }
        requires fits { self.now.next + count ≤ LAST }
        ensures at { result.at ≡ self.now.at + (5 + 8 * count) }
        ensures next { result.next ≡ self.now.next + count }
    {
        let next = self.next;
        Tail {
            at: self.at + 5 + 8 * count as u64,
            next: Lsn::new(next.units() + count),
        }
    }
}

/// What a log file holds.
#[derive(Debug, Drop)]
pub struct Scan {
    /// What stands before the list of records.
    pub opening: Opening,

    /// The units of the list.
    pub units: LogUnits,

    pub tail: Tail,
}

/// Why bytes are no log file.
#[derive(Clone, Copy, Debug, PartialEq, Eq)]
pub enum ScanFault {
    /// They don't begin with an open gate and the magic bytes of a format.
    NotALog,

    /// In a file of the second format the head is cut, or a number in it is out of its range.
    BadSnapshot,

    /// No batch stands behind the open gate at this place in the file.
    BadBatch { offset: u64 },

    NoMemory,
}
