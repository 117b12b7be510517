//! The workers of a run, as they are hired, what all of them share, and the rest of one that gets no thread.
#![tactic(auto)]

mod relief;
mod reserving;
mod shared;
mod workers;

pub use relief::FlushingRelief;
pub use reserving::room_for;
pub use shared::Run;
pub use workers::{Worker, hire_all};
