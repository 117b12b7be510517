//! What tests of the top call make alike: what the program is given, over a disk, a source and a sink in memory, and what it answers.
#![tactic(auto)]

mod answer;
mod given;

pub use answer::{
    Answer, answer_at, answer_on, answers, has_answered, has_ended, has_left, is_no_command,
    leaves, log_of, made, reads, run_on, sink_of,
};
pub use given::{End, GENESIS_LOG, Given, NEW};
