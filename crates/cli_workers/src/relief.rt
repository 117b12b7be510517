//! A worker that waits keeps the daemon at work, where no other thread does.
use commit_pipeline::Daemon;
use crossbeam_utils::sync::Key;
use log_disk::{LogDisk, Sink};
use std::sync::Wait;
use txn_runner::{Made, Relief};

/// A daemon that makes a turn at each rest, until it has a fault, which it keeps.
#[derive(Drop)]
pub struct FlushingRelief<'a, D: LogDisk, K: Sink> {
    pub daemon: Daemon<'a, D, K>,
}

impl<'a, D: LogDisk, K: Sink> Relief for FlushingRelief<'a, D, K> {
    ghost use Rattle.std.specs.Prelude.{◌≡◌, None};
    ghost use Rattle.commit_pipeline.specs.Later.{Later};
    ghost use Rattle.commit_pipeline.specs.Turning.{MayTurn};
    ghost use Rattle.commit_pipeline.proofs.RanLemmas.{Later-refl, Later-trans};

    ghost ready = { λ relief. relief.daemon.fault ≡ None → MayTurn D.LogDisk relief.daemon };

    ghost later = { λ old new. Later D.LogDisk K.Sink old.daemon new.daemon };

    fn begin(&mut self) {}

    // It is the daemon: nobody would wake it.
    fn is_tired(&self) -> bool {
        false
    }

    fn sleep<R: Wait>(&mut self, _rt: &R, _key: Key<'_>) {
        self.rest();
    }

    fn between(&mut self, _made: Made, _lost: u32) {}

    // It never sleeps: what it waits for may need a flush at any moment.
    fn rest(&mut self) {
        if self.daemon.fault().is_none() {
            let _ = self.daemon.turn();
        }
    }

    ghost later_refl = { λ relief. Later-refl D.LogDisk.own K.Sink.own relief.daemon };

    ghost later_trans = { λ first mid last before after. Later-trans D.LogDisk.own K.Sink.own first.daemon mid.daemon last.daemon before after };
}
