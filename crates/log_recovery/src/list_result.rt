//! A list of records as it is read from bytes, before its records are tested.

use lsn_space::Opening;
use segment_file::{LogUnits, Tail};

/// The list of records that a log holds, lawful or not.
#[derive(Debug, Drop)]
pub struct Listed {
    /// What stands before the list.
    pub opening: Opening,

    /// The spellings of its records, joined.
    pub units: LogUnits,

    /// Where the file goes on. Its LSN is the end of the list.
    pub tail: Tail,
}
