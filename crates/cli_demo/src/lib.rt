//! The command `demo`: it makes a log of generated accounts, makes generated transfers over it, and sums them up.
#![tactic(auto)]

pub mod demo_command;
