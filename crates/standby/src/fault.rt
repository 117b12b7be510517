//! The faults of a standby.

use lock_core::Why;
use lsn_space::Lsn;

/// Why a standby goes no further. The frames before stay applied, and of two faults the one that comes first in the stream is told.
#[derive(Clone, Copy, Debug, PartialEq, Eq)]
pub enum StandbyFault {
    /// The part of the stream at this byte is cut or outside the grammar: the head at 0, a frame at its count, or a byte behind the
    /// end.
    BadStream { offset: u64 },

    /// The stream begins at `from`, and the log ends at `have`, another LSN.
    Gap { have: Lsn, from: Lsn },

    /// The record of the stream that starts at this LSN is the first that fails a test, and this is the first test that it fails.
    StreamUnlawful { lsn: Lsn, why: Why },

    /// The disk failed. The frame under way is in the log whole or not at all.
    DiskFault,

    NoMemory,
}
