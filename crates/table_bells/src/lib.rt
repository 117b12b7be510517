//! The bells of a table: who waits for one of its words sleeps until the word is stored.
#![tactic(auto)]

mod bells;

pub use bells::Bells;
