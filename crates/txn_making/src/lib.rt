//! The making of one transfer over the table: it takes its accounts, inserts its records, and gives the accounts back.
#![tactic(auto)]

mod giving;
mod inserting;
mod legs;
mod taking;
mod transfer;

pub use giving::{give_all, give_unchanged};
pub use taking::take_all;
pub use transfer::insert_transfer;
