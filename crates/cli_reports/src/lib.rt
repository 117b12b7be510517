//! The commands `recover` and `dump`: they read the bytes of a log, and write what it holds.
#![tactic(auto)]

pub mod dump_command;
pub mod recover_command;
