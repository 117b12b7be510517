//! What tests make alike: a table and its workers, jobs with notes, and what the flusher's seat sends.
#![tactic(auto)]

mod accounts;
mod notes;
mod sending;
mod tables;

pub use accounts::values_of;
pub use notes::{insert_all, insert_note, note_units, noted_job, place_note};
pub use sending::send_all;
pub use tables::{job_of, table_of, table_with_slots, worker};
