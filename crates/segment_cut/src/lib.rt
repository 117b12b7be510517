//! Files of the second format, written: a head behind the first gate of a disk without a log, alone or with batches behind it.
#![tactic(auto)]

mod cutting;
mod underway;

pub use cutting::create_cut;
pub use underway::{add_cut, begin_cut, open_cut};
