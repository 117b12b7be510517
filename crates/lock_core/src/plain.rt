//! The definition's plain program: it looks through the whole list before each record.

mod judging;
mod kinds;
mod own;

pub use judging::{PlainFault, plain_accounts};
