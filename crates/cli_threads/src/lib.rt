//! The transfers of a run: workers in threads, the daemon beside them, and what is known once all of them have ended.
#![tactic(auto)]

mod gathering;
mod room;
mod scope;
mod serving;
mod transfers;

pub use transfers::{Prepared, ReadyRun, prepare, run_transfers};
