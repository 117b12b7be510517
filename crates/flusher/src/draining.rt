//! The question whether the log has come to its end.
ghost use Rattle.std.specs.Prelude.{◌≡◌, true};
ghost use Rattle.log_table.specs.Seats.{view_of};
ghost use Rattle.log_rule.specs.Views.{knows_all_enrolled};
ghost use Rattle.flusher.specs.Flushing.{MayFlush, AsksDrained};

use crate::flusher::{Drained, Flusher};
use log_disk::LogDisk;

impl<'a, D: LogDisk> Flusher<'a, D> {
    /// Whether workers are active, and where none is, whether all that is exposed is on the disk. At is the end of the
    /// log: no worker was active when exposed was loaded, and none made so far will be.
    pub fn drained(&mut self) -> Drained
        requires ready { MayFlush D.LogDisk self.old }
        requires told { knows_all_enrolled (view_of self.old.seat).standing ≡ true }
        ensures { AsksDrained D.LogDisk self.old self.new result }
    {
        let active = self.table.load_crew(&mut self.seat);
        if active > 0 {
            return Drained::Active(active);
        }
        let exposed = self.table.load_exposed(&mut self.seat);
        let durable = self.tail.next;
        if exposed == durable {
            Drained::At(durable)
        } else {
            Drained::Behind { exposed, durable }
        }
    }
}
