//! The line of each record that ends a transaction, and the count of such records.
#![tactic(auto)]

mod end_line;
mod saying;
mod tally;
mod voice;

pub use saying::tell_record;
pub use tally::Tally;
pub use voice::Voice;
