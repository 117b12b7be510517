//! What all workers of a run share.
ghost use Rattle.std.specs.Prelude.{◌≡◌, All};
ghost use Rattle.std.proofs.Props.{props};
ghost use Rattle.lock_core.specs.Transfers.{IsAllowedJob};

use log_table::LogTable;
use std::sync::atomic::AtomicBool;
use txn_runner::Queue;

/// What all workers of a run share.
#[derive(Drop)]
pub struct Run<'a, R, G> {
    pub rt: &'a R,
    pub table: &'a LogTable,
    pub queue: &'a Queue,
    /// For each worker, whether no thread could be made for it.
    pub refused: &'a [AtomicBool],
    pub wait: bool,
    pub gate: &'a G,
    pub ghost allowed: { All (IsAllowedJob table.now.accounts) queue.now.script } by { Prim.hlevel props },
}

impl<'a, R, G> Run<'a, R, G> {
    /// What workers share that make the transfers of this queue on this table, each with a flag of its number. With `wait` each
    /// keeps the accounts of a transfer until its end is durable, or it is cut off.
    pub fn make(
        rt: &'a R,
        table: &'a LogTable,
        queue: &'a Queue,
        refused: &'a [AtomicBool],
        wait: bool,
        gate: &'a G,
    ) -> Run<'a, R, G>
        requires allowed { All (IsAllowedJob table.now.accounts) queue.now.script }
        ensures table { result.table.now ≡ table.now }
        ensures queue { result.queue.now ≡ queue.now }
        ensures refused { result.refused.now ≡ refused.now }
        ensures wait { result.wait ≡ wait }
    {
        Run {
            rt,
            table,
            queue,
            refused,
            wait,
            gate,
        }
    }

    /// Whether a worker keeps the accounts of a transfer until its end is durable, or it is cut off.
    pub fn waits(&self) -> bool
        ensures { result ≡ self.now.wait }
    {
        self.wait
    }
}
