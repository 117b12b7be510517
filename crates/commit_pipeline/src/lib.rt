//! The log daemon: it flushes, and only then writes a line for each transaction that ended in what it flushed.
#![tactic(auto)]

mod daemon;
mod running;

pub use daemon::{Daemon, DaemonParts};
pub use daemon_turn::{DaemonFault, Turn};
pub use end_lines::Voice;
