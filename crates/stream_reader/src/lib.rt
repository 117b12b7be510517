//! A reader of the stream in which a log is shipped. It takes the stream in pieces of any length, part by part, and judges each
//! part by the grammar of `ship_stream`. `take` is the way in; `specs/Reader.antt` says what a reader has read.
#![tactic(auto)]

mod begun;
mod numbers;
mod reader;
mod records;
mod taking;
mod units;

pub use reader::{BadStream, Part, Stage, StreamReader, read_has_come};
pub use records::record_at;
