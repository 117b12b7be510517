//! The accounts of a transfer in the order in which workers take them, and what a worker tells of its transfers.
#![tactic(auto)]

mod accounts;
mod cause;
mod rows;

pub use accounts::{MOST_PARTIES, list_accounts};
pub use cause::{Cause, Worked, unless_stopped};
pub use rows::{Answer, Row, Rows};
