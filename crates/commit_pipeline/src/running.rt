//! Turns until the log has come to its end.
ghost use Rattle.std.specs.Prelude.{◌≡◌, IfOk, IfErr, OnOk, IfSome, IfNone, Some};
ghost use Rattle.log_table.specs.Seats.{view_of};
ghost use Rattle.log_rule.specs.Sends.{IsDrained};
ghost use Rattle.flusher.specs.Flushing.{Asks};
ghost use Rattle.commit_pipeline.specs.Later.{Later};
ghost use Rattle.commit_pipeline.specs.Turning.{GoesOn, KnowsWorkers, MayTurn, durable};

use crate::daemon::Daemon;
use daemon_turn::{DaemonFault, Turn};
use flusher::Drained;
use idle_backoff::doze;
use log_disk::{LogDisk, Sink};
use lsn_space::Lsn;
use std::sync::Wait;
use std::time::Clock;

impl<'a, D: LogDisk, K: Sink> Daemon<'a, D, K> {
    /// Makes turns until no worker is active and all that they released is on the disk, and answers the end of the log. It
    /// waits for the workers.
    pub fn run_until_drained<R: Wait + Clock>(&mut self, rt: &R) -> Result<Lsn, DaemonFault>
        requires ready { MayTurn D.LogDisk self.old }
        requires told { KnowsWorkers self.old }
        ensures drained { IfOk result (λ lsn. IsDrained (view_of self.new.flusher.seat) × (lsn ≡ durable self.new)) }
        ensures ready { OnOk result (MayTurn D.LogDisk self.new) }
        ensures fault { IfErr result (λ fault. self.new.fault ≡ Some fault) }
        ensures later { Later D.LogDisk K.Sink self.old self.new }
    {
        let mut batch = 0;
        for _ in rt.forever() {
            let from = self.flusher.tail.next;
            let turn = self.turn()?;
            if let Some(lsn) = self.end() {
                return Ok(lsn);
            }
            batch = rest_behind(turn, from, batch, rt);
        }
        unreachable!()
    }

    /// The end of the log, exactly where it has come to that.
    fn end(&mut self) -> Option<Lsn>
        requires ready { MayTurn D.LogDisk self.old }
        requires told { KnowsWorkers self.old }
        ensures at { IfSome result (λ lsn. Asks self.old.flusher self.new.flusher (Drained.At lsn)) }
        ensures none { IfNone result ((drained : Drained) × GoesOn drained × Asks self.old.flusher self.new.flusher drained) }
        ensures ready { MayTurn D.LogDisk self.new }
        ensures later { Later D.LogDisk K.Sink self.old self.new }
    {
        match self.ask() {
            Drained::At(lsn) => Some(lsn),
            Drained::Active(_) => None,
            Drained::Behind { .. } => None,
        }
    }

    /// Whether workers are active, and where none is, whether all that is exposed is on the disk.
    pub fn ask(&mut self) -> Drained
        requires ready { MayTurn D.LogDisk self.old }
        requires told { KnowsWorkers self.old }
        ensures asks { Asks self.old.flusher self.new.flusher result }
        ensures ready { MayTurn D.LogDisk self.new }
        ensures later { Later D.LogDisk K.Sink self.old self.new }
    {
        self.flusher.drained()
    }
}

/// What comes between two turns. It answers how many units the last batch has; that was `batch` before the last turn, which began at
/// `from`. Behind a turn that sent something the next comes at once; where nothing comes, the daemon leaves the processor to the workers.
fn rest_behind(turn: Turn, from: Lsn, batch: u32, clock: &impl Clock) -> u32 {
    match turn {
        Turn::Sent { to, .. } => to.units().saturating_sub(from.units()),
        Turn::Idle => {
            doze(clock, batch);
            batch
        }
    }
}
