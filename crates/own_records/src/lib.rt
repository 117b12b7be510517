//! Records of one's own: texts in a log file that a crash leaves whole. `open` makes the file or goes on with it, `append`
//! adds a text, `read_all` gives all of them.
#![tactic(auto)]

mod appending;
mod creating;
mod layout;
mod opening;
mod reading;
mod record;

pub use appending::{AppendFault, End, append};
pub use layout::{MOST_BYTES, file_numbers};
pub use opening::{OpenFault, open, read_all};
pub use reading::{RecordsFault, one_list, records_in};
pub use record::Record;
