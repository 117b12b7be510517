//! The texts that users hand in: the balances of a new log, and scripts of transfers; and scripts that are generated.
#![tactic(auto)]

mod fault;
mod generator;
mod laws;
mod lines;
mod opening;
mod pay;
mod script;
mod stored;

pub use fault::ParseFault;
pub use generator::{
    GENERATED_ACCOUNTS, GENERATED_BALANCE, generated_in_any_order, generated_jobs_laws, make,
};
pub use laws::format_numbers;
pub use lines::written_lines;
pub use lock_core::{Job, Leg, Legs, Remark, allowed_jobs};
pub use opening::{balances, balances_one_reading};
pub use script::{Script, parse, script_one_reading};
