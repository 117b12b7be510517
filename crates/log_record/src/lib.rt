//! Records of the log, and how they are spelled in units.
#![tactic(auto)]

mod header;
mod laws;
mod limits;
mod note;
mod reading;
mod rec;
mod text;
mod units;
mod writing;

pub use header::{COMMIT, Header, OVER, SHORT};
pub use laws::{format_limits, log_list_laws, one_spelling, spelling_bounds};
pub use limits::{LAST_TXN, MOST_LEGS};
pub use note::is_printable;
pub use reading::{read, read_into};
pub use rec::{BadRec, Placed, Rec};
pub use text::{LONGEST_NOTE, Text};
pub use units::{LONGEST_RECORD, Units};
pub use writing::{
    spell, spell_commit, spell_into, spell_note, spell_over, spell_short, spell_update,
};
