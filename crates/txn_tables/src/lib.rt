//! A number for each transaction, however the transactions' own numbers were chosen.
#![tactic(auto)]

mod node;
mod numbers;
mod row;
mod scattered;
mod txn_table;

pub use numbers::fixed_numbers;
pub use txn_table::TxnTable;
