//! The top call: what the program does with its words, its disk, its input and its output.
#![tactic(auto)]

mod top;

pub use cli_shared::{Detail, Report};
pub use top::aether;
