//! Why a range was not reserved.
use lsn_space::Lsn;

/// Why no range was reserved. The LSNs are those that the call, or its group's leader, looked at, and `total` is
/// the number of units asked for, of a group by all members.
#[derive(Clone, Copy, Debug, PartialEq, Eq)]
pub enum Refused {
    /// The units would go past the ring's length above durable: once more is flushed, there may be room.
    RingFull { tail: Lsn, durable: Lsn, total: u32 },
    /// The units would go past the greatest LSN: the log has no room for so many any more.
    LogEnd { tail: Lsn, total: u32 },
}
