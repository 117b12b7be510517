//! What the commands share: why the program ends, the line that tells it, and how an input, a script and a log are read, a log is found,
//! and the list of a new one is spelled.
#![tactic(auto)]

mod faults;
mod finding;
pub mod genesis;
mod input;
mod log_input;
mod opening;
mod report;
mod script_input;

pub use faults::put_fault;
pub use finding::finds_none;
pub use input::{read_all, read_input};
pub use log_input::{read_log, read_pieces, source_detail};
pub use opening::{image_of, open_log};
pub use report::{Detail, Report, detail_of};
pub use script_input::{read_script, read_transfers};
