//! Laws of what the commands promise, and witnesses that their premises can be met.
#![tactic(auto)]

mod laws;

pub use laws::{
    known_mixes, new_is_recovered, one_payment_is_made, run_is_recovered, run_keeps_log,
    summary_in_any_order, told_commits_are_held, total_at_the_log_end, transfers_come_in_turn,
};
