//! The rows of a worker: how each of its transfers ended.
ghost use Rattle.std.specs.Prelude.{◌≡◌, ◌≤◌, ◌++◌, ◌∷◌, [], IfOk};
ghost use Rattle.txn_jobs.specs.Rows.{rows_in, room_of, HasRoom, IsTold};

use crate::cause::{Cause, Worked};
use lsn_space::{Lsn, NoMemory};
use std::alloc::Global;

/// How a transfer ended. A leg is counted from 1.
#[derive(Clone, Copy, Debug, PartialEq, Eq)]
pub enum Answer {
    Done,
    /// At this leg the payer had too little.
    Short(u32),
    /// At this leg the payee would have had too much.
    Over(u32),
}

/// How a transaction ended, where its end record ends, and the durable LSN that the worker saw last before it gave the
/// accounts back.
#[derive(Clone, Copy, Debug, PartialEq, Eq)]
pub struct Row {
    pub txn: u32,
    pub answer: Answer,
    pub end: Lsn,
    pub seen: Lsn,
}

/// The rows of one worker, in the order of their ends.
#[derive(Drop)]
pub struct Rows {
    rows: Vec<Row>,
}

impl Rows {
    /// Room for so many rows.
    pub fn make(alloc: Global, n: u32) -> Result<Rows, NoMemory>
        ensures rows { IfOk result (λ rows. rows_in rows ≡ []) }
        ensures room { IfOk result (λ rows. n ≤ room_of rows) }
    {
        match Vec::with_capacity(alloc, n as usize) {
            Ok(rows) => Ok(Rows { rows }),
            Err(_) => Err(NoMemory),
        }
    }

    pub fn as_slice(&self) -> &[Row]
        ensures { result.now ≡ rows_in self.now }
    {
        self.rows.as_slice()
    }

    /// Adds the row of the transfer that was taken last.
    pub fn push(&mut self, row: Row)
        requires room { HasRoom self.old }
        ensures rows { rows_in self.new ≡ rows_in self.old ++ row ∷ [] }
        ensures room { room_of self.new ≡ room_of self.old }
    {
        self.rows.push_reserved(row);
    }

    /// Adds the row of the transfer that was taken last, where it ended. Some: it was cut off and has no row, and so the worker
    /// ends.
    pub fn tell(&mut self, made: Result<Row, Cause>) -> Option<Worked>
        requires room { HasRoom self.old }
        ensures told { IsTold made result (rows_in self.old) (rows_in self.new) }
        ensures room { room_of self.new ≡ room_of self.old }
    {
        match made {
            Ok(row) => {
                self.push(row);
                None
            }
            Err(cause) => Some(Worked::Cut(cause)),
        }
    }
}
