//! Addresses in the log, units of eight bytes, numbers as text, and small types that most
//! other crates pass around: an LSN, a word of the command line, the accounts' balances.
#![tactic(auto)]

mod balances;
mod lsn;
mod memory;
mod numerals;
mod opening;
mod unit;
mod word;

pub use balances::Balances;
pub use lsn::{GREATEST_RING, LAST, LEAST_RING, Lsn, MOST_SLOTS, format_numbers, place};
pub use memory::NoMemory;
pub use numerals::{MOST_GENERATED, decimal, number};
pub use opening::{MOST_ACCOUNTS, MOST_AMOUNT, MOST_BALANCE, Opening};
pub use unit::{UNIT_BYTES, bytes_of, unit_bytes_inverse, unit_of};
pub use word::Word;
