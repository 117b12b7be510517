//! A turn, and what is kept of one that failed.
ghost use Rattle.std.specs.Prelude.{IfOk, IfErr, OnOk};
ghost use Rattle.commit_pipeline.specs.Later.{Later};
ghost use Rattle.commit_pipeline.specs.Turning.{HasCounted, MayTurn, Turns, Fails};

use super::Daemon;
use daemon_turn::{DaemonFault, Turn, make_turn};
use log_disk::{LogDisk, Sink};

impl<'a, D: LogDisk, K: Sink> Daemon<'a, D, K> {
    /// Flushes, and then writes a line for each end record in what was sent. A fault is told to the workers by the stop
    /// word before it is answered, and no further turn may be made. With `Voice::Count` no line is written.
    pub fn turn(&mut self) -> Result<Turn, DaemonFault>
        requires ready { MayTurn D.LogDisk self.old }
        ensures turned { IfOk result (Turns D.LogDisk K.Sink self.old self.new) }
        ensures failed { IfErr result (Fails D.LogDisk K.Sink self.old self.new) }
        ensures ready { OnOk result (MayTurn D.LogDisk self.new) }
        ensures counted { HasCounted self.new }
        ensures later { Later D.LogDisk K.Sink self.old self.new }
    {
        let made = make_turn(&mut self.flusher, self.voice, self.sink, &mut self.tally);
        match made {
            Ok(turn) => Ok(turn),
            Err(fault) => {
                self.fault = Some(fault);
                Err(fault)
            }
        }
    }
}
