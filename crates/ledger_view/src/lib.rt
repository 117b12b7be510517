//! An index of a log's Commits, account by account: what each did to the account, and the balance behind it.
#![tactic(auto)]

mod account_view;
mod accounts;
mod entries;
mod laws;
mod net;
mod plain;
mod plain_list;
mod rows;
mod view;

pub use account_view::AccountView;
pub use entries::{Entries, Entry};
pub use laws::{balances_are_plain, entries_are_plain, fixed_numbers, fronts_are_prefixes};
pub use plain::{plain_balance_at, plain_entries};
pub use plain_list::EntryList;
pub use view::View;
