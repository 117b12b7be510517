//! What tests of a run make alike: scripts in a queue and workers that make them, a daemon over a disk, and
//! what is recovered there.
#![tactic(auto)]

mod crew;
mod daemons;
mod recovered;
mod workers;

pub use crew::{Hand, hands, live_all};
pub use daemons::{CREATED, daemon_on, flusher_on};
pub use recovered::{recovered_balances, recovered_end};
pub use workers::{enlisted, jobs_of, thirties, work_queue};
