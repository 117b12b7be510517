//! The recovery of a log whose bytes are read from a source piece by piece. Of the bytes, and of the units that they hold, it keeps
//! little more than the longest batch that a log may have. `recover_source` is the way in. Who needs the list itself gets its units, and
//! of the bytes no more is kept there either: `list_source`, `take_source` and `recover_source_list`.
#![tactic(auto)]

mod asked;
mod batches;
mod passing;
mod records;
mod recovery;
mod scanning;
mod window;

pub use asked::TakesAsked;
pub use recovery::{SourceFault, recover_source, take_pieces};
pub use scanning::{list_source, recover_source_list, take_source};
