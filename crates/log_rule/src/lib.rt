//! What holds of the words of the log between any two steps: what each seat knows, and one rule over this and the
//! words. `table_layout` says where each word lies, and `log_table` has the steps.
#![tactic(auto)]

mod group_view;
mod laws;
mod start;
mod view;

pub use group_view::{After, HeardRefusal, MemberStep, Piece};
pub use laws::sent_lawfully;
pub use start::Start;
pub use view::{
    Books, Call, Constants, Entry, Given, Half, Role, Seen, Sending, Standing, Taken, TakenJob,
    View,
};
