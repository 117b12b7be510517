//! How the transfers of a run ended, and what the program answers then.
#![tactic(auto)]

mod conclusion;
mod counted;

pub use conclusion::{RunEnd, conclude, stopped};
pub use counted::conclude_counted;
