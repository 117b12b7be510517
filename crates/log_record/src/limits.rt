//! The limits of transactions in the format.

/// The most legs of a transaction.
pub const MOST_LEGS: u16 = 8;

/// The greatest number of a transaction.
pub const LAST_TXN: u32 = u32::MAX;
