//! A worker's share in a group, and why a group has no range.
use log_record::Units;
use lsn_space::Lsn;

/// A worker's share in the group at a slot: the piece begins at this offset, and is for a record of these units.
#[derive(Drop)]
pub struct Share {
    pub worker: u32,
    pub slot: u32,
    pub offset: u32,
    pub units: Units,
}

/// By this tail and this durable a group had no room.
#[derive(Drop)]
pub struct Refusal {
    pub tail: Lsn,
    pub durable: Lsn,
}
