//! What a worker works with.
use crate::made::Made;
use log_table::{LogTable, Seat};

/// A worker's desk: the table, the worker's seat there, what it does while it waits, the gate that it tells of its places, whether it
/// waits for the disk, as then others do, and how far it has come.
#[derive(Drop)]
pub struct Desk<'a, R, Q, G> {
    pub rt: &'a R,
    pub table: &'a LogTable,
    pub seat: &'a mut Seat,
    pub relief: &'a mut Q,
    pub gate: &'a G,
    pub wait: bool,
    pub made: Made,
}
