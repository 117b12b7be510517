//! The command line of the program. What it takes is defined once, as a command of `clap`, and the words are read by it.
#![tactic(auto)]

mod command;
mod definition;
mod laws;
mod matching;
mod options;
mod parsing;

pub use command::{Command, RefusedWords};
pub use laws::{format_numbers, one_command};
pub use options::{DEFAULT_RING, DEFAULT_SLOTS, DEFAULT_WORKERS, MOST_WORKERS, RunOptions};
pub use parsing::{GREATEST_ACCOUNT, GREATEST_SEED, parse};
