//! The commands `asof` and `statement`: they read the bytes of a log, and write how its accounts stood at an LSN, and what
//! happened to one of them.
#![tactic(auto)]

mod accounts_at;
pub mod asof_command;
mod one_account;
pub mod statement_command;
mod statement_text;
