//! The words of the log, shared by threads. Every step is one atomic action on one word, made with a
//! seat, and one rule over the words and over what each seat knows holds between any two steps.
#![tactic(auto)]

mod closed;
mod hiring;
mod indexing;
mod plays;
mod seating;
mod steps;
mod table;

pub use closed::Closed;
pub use log_rule::{
    After, Books, Call, Constants, Entry, Given, HeardRefusal, MemberStep, Piece, Role, Seen,
    Sending, Standing, Start, Taken, TakenJob, View,
};
pub use table::{LogTable, Seat};
pub use table_layout::fixed_layout;
