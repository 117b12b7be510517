//! The parts of which a worker makes a transfer: an account that it holds, a leg on the balances of such accounts, with which
//! values accounts go back, the desk that a worker works at, and what it does there while it waits.
#![tactic(auto)]

mod desk;
mod ended;
mod leg;
mod listening;
mod made;
mod noting;
mod numbered;
mod release;
mod relief;
mod taken_account;
mod waiting;

pub use desk::Desk;
pub use ended::TransferEnd;
pub use leg::{holding_of, move_amount, refusal, spell_credit, spell_debit};
pub use listening::listen_account;
pub use made::Made;
pub use noting::spell_job_note;
pub use numbered::Numbered;
pub use release::Release;
pub use relief::{Relief, YieldRelief};
pub use taken_account::TakenAccount;
pub use waiting::{may_come, pause, see_durable};
