//! What sends the exposed part of the log to the disk: how it is made, what is left of it, and what it answers.
ghost use Rattle.std.specs.Prelude.{◌≡◌, []};
ghost use Rattle.log_rule.specs.May.{MayClose};
ghost use Rattle.log_table.specs.Seats.{view_of};
ghost use Rattle.segment_file.specs.Log.{Log};
ghost use Rattle.segment_file.specs.StandingLog.{LogStands};
ghost use Rattle.flusher.specs.KeptLog.{KeepsLog, sent_by, read_by};

use log_disk::LogDisk;
use log_table::{LogTable, Seat};
use lsn_space::Lsn;
use segment_file::{Batch, Tail};
use std::snapshot::Snapshot;

/// What sends what is exposed of the log to the disk: the table, the disk, the table's first seat, room for a batch,
/// and where the log goes on in its file. As long as it is there nothing else reaches the disk.
#[derive(Drop)]
pub struct Flusher<'a, D: LogDisk> {
    pub table: &'a LogTable,
    pub(crate) disk: &'a mut D,
    pub seat: Seat,
    pub batch: Batch,
    pub tail: Tail,
    /// The disk as it was when the flusher was made.
    first: Snapshot<D>,
    ghost keeps: { D.honest disk.now → ∥ KeepsLog D.LogDisk first.value disk.now tail (sent_by seat) (read_by seat) ∥₁ },
}

impl<'a, D: LogDisk> Flusher<'a, D> {
    ghost use Rattle.flusher.specs.MadeFlusher.{IsFlusherOf};

    /// A flusher over a disk of which each image holds one log, which goes on at this tail. Its seat has sent nothing.
    pub fn make(
        table: &'a LogTable,
        disk: &'a mut D,
        seat: Seat,
        batch: Batch,
        tail: Tail,
    ) -> Flusher<'a, D>
        requires log { D.honest disk.old → (opened : Log) × LogStands tail opened (D.images disk.old) }
        requires unsent { sent_by seat ≡ [] }
        requires unread { read_by seat ≡ [] }
        ensures { IsFlusherOf table.entry disk.entry seat batch tail disk.old result }
    {
        let first = Snapshot::of(disk);
        Flusher {
            table,
            disk,
            seat,
            batch,
            tail,
            first,
        }
    }

    /// The seat goes to whoever closes the table, and the disk back to whoever lent it. All workers' seats were taken in
    /// before, so nothing more will come.
    pub fn into_parts(self) -> FlusherParts<'a, D>
        requires over { MayClose (view_of self.seat) }
        ensures seat { result.seat ≡ self.entry.seat }
        ensures disk { result.disk ≡ self.entry.disk }
    {
        let Flusher { seat, disk, .. } = self;
        FlusherParts { seat, disk }
    }
}

/// What is left of a flusher.
#[derive(Drop)]
pub struct FlusherParts<'a, D> {
    pub seat: Seat,
    pub disk: &'a mut D,
}

/// What a flush did.
#[derive(Clone, Copy, Debug, PartialEq, Eq)]
pub enum Flushed {
    /// Nothing is exposed beyond durable, which is this LSN.
    Nothing { at: Lsn },
    /// The units from the one LSN to the other are on the disk, and durable is the latter.
    To { from: Lsn, to: Lsn },
}

/// Whether everything is on the disk, and nothing more will come.
#[derive(Clone, Copy, Debug, PartialEq, Eq)]
pub enum Drained {
    /// No worker is active, and durable is this LSN, the end of the log.
    At(Lsn),
    /// So many workers are active.
    Active(u64),
    /// No worker is active, and units are exposed beyond durable.
    Behind { exposed: Lsn, durable: Lsn },
}
