//! The command `run`: it makes the transfers of a script over a log.
#![tactic(auto)]

pub mod run_command;
