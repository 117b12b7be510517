//! The command `new`: it makes a log of the balances that are read.
#![tactic(auto)]

pub mod new_command;
