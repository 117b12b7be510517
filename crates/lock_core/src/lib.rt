//! What a list of records says: which lists are lawful, what balances they leave, what one transfer
//! answers alone, and the judge that takes a list record by record.
#![tactic(auto)]

mod account_changes;
mod checks;
mod job;
mod judge;
mod laws;
mod ledger;
mod plain;
mod reason;
mod taker;
mod transactions;
mod update;
mod update_links;

pub use job::{Job, Leg, Legs, Remark};
pub use judge::Judge;
pub use laws::{
    allowed_jobs, another_number, balances_in_range, cut_log_goes_on, done_in_any_order,
    genesis_log_is_lawful, lawful_append, lawful_front, lawful_split, no_more_accounts,
    numbers_apart, one_more_record, one_transfer_is_serial, opening_goes_on, own_accounts_alone,
    partly_serial_for_more, partly_serial_front, plain_words, planned_records_are, predecessors,
    records_to_come, sound_after, sum_is_kept, sums_go_on,
};
pub use plain::{PlainFault, plain_accounts};
pub use reason::{JudgeFault, Why};
pub use taker::TakesRecords;
pub use update::{Change, MOST_UPDATES, txn_of};
