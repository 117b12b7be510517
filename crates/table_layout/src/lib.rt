//! Where each word of the log's table lies, and the words of its accounts. `log_rule` says what they hold between any two steps.
#![tactic(auto)]

mod account_words;
mod layout;

pub use account_words::{put_accounts, read_rows};
pub use layout::{
    CREW, DURABLE, EXPOSED, RING, STOP, STRIDE, TAIL, account_place, balance_place, base_place,
    fixed_layout, mark_place, slot_place,
};
