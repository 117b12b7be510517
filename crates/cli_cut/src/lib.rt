//! The commands `cut` and `upgrade`: they make a log of the second format of another log. `cut` keeps what that leaves of its accounts, and `upgrade` all of its
//! records behind those of its accounts.
#![tactic(auto)]

pub mod cut_command;
pub mod laws;
mod reading;
pub mod upgrade_command;
mod writing;
