//! Accounts are taken and given back. A worker need hold an account only until its commit has a place in
//! the log, not until it is durable.
#![tactic(auto)]

mod giving;
mod taken;

pub use giving::{give, give_durable};
pub use taken::{Held, Taken, try_take};
