//! The commands `ship` and `follow`: the one writes the records of a log from a boundary on as a stream, and the other appends each frame
//! of such a stream to a log.
#![tactic(auto)]

pub mod follow_command;
pub mod laws;
mod opening;
pub mod ship_command;
