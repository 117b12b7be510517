//! What a table starts with.
use lsn_space::{Balances, Lsn};

/// What a table starts with: the end of the log, the ring's length in units, the number of slots of
/// the consolidation array, and the accounts.
#[derive(Drop)]
pub struct Start {
    pub start: Lsn,
    pub ring: u32,
    pub slots: u32,
    pub accounts: Balances,
}
