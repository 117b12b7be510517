//! The rows of a worker, and its pass of the queue.
ghost use Rattle.std.specs.Prelude.{◌≡◌, ◌≤◌, ◌<◌, [], length, None, IfOk};
ghost use Rattle.txn_jobs.specs.Rows.{IsTold};
ghost use Rattle.job_queue.specs.Passes.{pass_in, rows_in, room_of};

use crate::takings::Takings;
use crossbeam_queue::Pass;
use lsn_space::NoMemory;
use std::alloc::Global;
use txn_jobs::{Cause, Row, Worked};

/// The rows of one worker, in the order of their ends, and its pass of the queue, where it has one.
#[derive(Drop)]
pub struct Rows {
    told: txn_jobs::Rows,
    pub(crate) pass: Option<Pass<u32, Takings>>,
}

impl Rows {
    /// Room for so many rows, and no pass.
    pub fn make(alloc: Global, n: u32) -> Result<Rows, NoMemory>
        ensures rows { IfOk result (λ rows. rows_in rows ≡ []) }
        ensures room { IfOk result (λ rows. n ≤ room_of rows) }
        ensures pass { IfOk result (λ rows. pass_in rows ≡ None) }
    {
        let told = txn_jobs::Rows::make(alloc, n)?;
        Ok(Rows { told, pass: None })
    }

    pub fn as_slice(&self) -> &[Row]
        ensures { result.now ≡ rows_in self.now }
    {
        self.told.as_slice()
    }

    /// Adds the row of the transfer that was taken last, where it ended. Some: it was cut off and has no row, and so the worker
    /// ends.
    pub fn tell(&mut self, made: Result<Row, Cause>) -> Option<Worked>
        requires room { length (rows_in self.old) < room_of self.old }
        ensures told { IsTold made result (rows_in self.old) (rows_in self.new) }
        ensures room { room_of self.new ≡ room_of self.old }
        ensures pass { pass_in self.new ≡ pass_in self.old }
    {
        self.told.tell(made)
    }
}
