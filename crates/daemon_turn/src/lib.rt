//! A turn of the daemon: one flush, and then the lines of what it sent. Where one of them fails, the workers are told.
#![tactic(auto)]

mod fault;
mod one_turn;
mod stopping;
mod telling;

pub use fault::DaemonFault;
pub use one_turn::{Turn, make_turn};
pub use stopping::tell_fault;
pub use telling::tell;
