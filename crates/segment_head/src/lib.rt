//! The head of a log file of the second format: what stands before the file's list of records, as bytes behind the
//! first gate. `Head` makes them, and `take_snapshot` reads them back.
#![tactic(auto)]

mod head;
mod snapshot;

pub use head::{Head, format_numbers};
pub use snapshot::{SnapshotFault, after_head_magic, first_unit, one_head, take_snapshot};
