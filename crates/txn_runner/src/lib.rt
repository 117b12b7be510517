//! Workers: each takes the next transfer of one queue as soon as it is free, and makes it over the table: it takes the
//! accounts, inserts the records, and gives the accounts back once the end record has its place in the log, or, where asked, is durable.
#![tactic(auto)]

mod counting;
mod job;
mod laws;
mod taking;
mod worker;

pub use job_queue::{Jobs, Queue, Rows};
pub use laws::no_job_twice;
pub use txn_jobs::{Answer, Cause, MOST_PARTIES, Row, Worked, list_accounts};
pub use txn_parts::{Made, Relief, YieldRelief};
pub use worker::work;
