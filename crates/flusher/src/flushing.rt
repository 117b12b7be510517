//! A flush: the units from durable to exposed go from the ring to the disk.
ghost use Rattle.std.specs.Prelude.{◌≤◌, ◌<◌, ◌+◌, ◌-◌, length};
ghost use Rattle.log_table.specs.Seats.{IsOf, key_of, view_of};
ghost use Rattle.flusher.specs.Flushing.{MayFlush, FlushEnds};
ghost use Rattle.flusher.specs.Gathering.{MayGather, Gathers};

use crate::flusher::{Flushed, Flusher};
use log_disk::LogDisk;
use log_table::{LogTable, Seat};
use lsn_space::Lsn;
use segment_file::{Batch, DiskFault, append};

impl<'a, D: LogDisk> Flusher<'a, D> {
    /// Writes what is exposed beyond durable to the disk as one batch, and then raises durable to its end. After an
    /// Err durable stands where it was, and no further flush may be made.
    pub fn flush(&mut self) -> Result<Flushed, DiskFault>
        requires ready { MayFlush D.LogDisk self.old }
        ensures { FlushEnds D.LogDisk self.old self.new result }
    {
        let from = self.tail.next;
        let to = self.table.load_exposed(&mut self.seat);
        if to == from {
            return Ok(Flushed::Nothing { at: to });
        }
        gather(self.table, &mut self.seat, &mut self.batch, from, to);
        self.tail = append(self.disk, self.tail, &mut self.batch)?;
        self.table.store_durable(&mut self.seat, to);
        Ok(Flushed::To { from, to })
    }
}

/// Reads the units from the one LSN to the other into the batch, and looks at the table then.
fn gather(table: &LogTable, seat: &mut Seat, batch: &mut Batch, from: Lsn, to: Lsn)
    requires seat { IsOf table.now seat.old }
    requires may { MayGather from to (view_of seat.old) }
    requires room { to ≤ from + batch.old.room }
    ensures { Gathers (key_of table.now) from to seat.old seat.new batch.old batch.new }
{
    batch.clear();
    for at in from.units()..to.units() {
        let unit = table.load_ring(seat, Lsn::new(at));
        batch.push(unit);
    }
    // So what was sent and read is lawful before it goes to the disk, where no job number stands twice.
    table.look(seat);
}
