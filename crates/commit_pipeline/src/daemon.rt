//! The daemon: a flusher, and the sink of the lines. Here is what it is made of, what it takes in, and what is left of it.
ghost use Rattle.std.specs.Prelude.{◌≡◌, ◌≤◌, ◌+◌};
ghost use Rattle.log_rule.specs.May.{MayClose, MayMerge};
ghost use Rattle.log_rule.specs.CrewViews.{takes_in};
ghost use Rattle.log_rule.specs.Sound.{HasReadStop};
ghost use Rattle.log_table.specs.Seats.{Becomes, IsOf, view_of};
ghost use Rattle.flusher.specs.Flushing.{ChangesSeat};
ghost use Rattle.commit_pipeline.specs.Told.{HasTold};

mod turning;

use daemon_turn::DaemonFault;
use end_lines::{Tally, Voice};
use flusher::Flusher;
use log_disk::{LogDisk, Sink};
use log_table::Seat;
use std::snapshot::Snapshot;

/// A flusher, and the sink that the lines of ended transactions go to. As long as it is there nothing else reaches the sink, and of
/// its own methods those alone that always return: what may wait stands in a module that doesn't see it.
#[derive(Drop)]
pub struct Daemon<'a, D: LogDisk, K: Sink> {
    pub flusher: Flusher<'a, D>,
    sink: &'a mut K,
    pub voice: Voice,
    pub(crate) tally: Tally,
    pub(crate) fault: Option<DaemonFault>,
    /// The sink as it was when the daemon was made.
    first: Snapshot<K>,
    /// The flusher's seat as it was then.
    begun: Snapshot<Seat>,
    ghost told: { ∥ HasTold K.Sink first.value sink.now voice (view_of begun.value) (view_of flusher.seat) ∥₁ },
}

impl<'a, D: LogDisk, K: Sink> Daemon<'a, D, K> {
    ghost use Rattle.commit_pipeline.specs.MadeDaemon.{IsDaemonOf};
    ghost use Rattle.commit_pipeline.specs.Turning.{ChangesFlusher, HasCounted, durable};

    /// A daemon that has no fault, and has counted and written nothing.
    pub fn make(flusher: Flusher<'a, D>, sink: &'a mut K, voice: Voice) -> Daemon<'a, D, K>
        ensures { IsDaemonOf K.Sink flusher.entry sink.entry voice sink.old result }
    {
        let tally = Tally {
            done: 0,
            refused: 0,
        };
        let first = Snapshot::of(sink);
        let begun = Snapshot::of(&flusher.seat);
        Daemon {
            flusher,
            sink,
            voice,
            tally,
            fault: None,
            first,
            begun,
        }
    }

    /// The flusher's seat takes in the seat of a worker that has ended, or a note.
    pub fn take_in(&mut self, other: Seat)
        requires seat { IsOf self.old.flusher.table.now self.old.flusher.seat }
        requires other { IsOf self.old.flusher.table.now other }
        requires may { MayMerge (view_of self.old.flusher.seat) (view_of other) }
        ensures view { Becomes self.old.flusher.seat self.new.flusher.seat (takes_in (view_of self.old.flusher.seat) (view_of other)) }
        ensures stops { HasReadStop (view_of self.old.flusher.seat).sending.stop (view_of other) }
        ensures flusher { ChangesSeat self.old.flusher self.new.flusher }
        ensures rest { ChangesFlusher self.old.fault self.old self.new }
    {
        let flusher = &mut self.flusher;
        flusher.table.merge(&mut flusher.seat, other);
    }

    /// The sink goes back to whoever lent it. All workers' seats were taken in before, so nothing more will come.
    pub fn into_parts(self) -> DaemonParts<'a, D, K>
        requires over { MayClose (view_of self.flusher.seat) }
        ensures flusher { result.flusher ≡ self.entry.flusher }
        ensures sink { result.sink ≡ self.entry.sink }
    {
        let Daemon { flusher, sink, .. } = self;
        DaemonParts { flusher, sink }
    }

    /// How many transactions are done, by the end records counted. With those that were refused they are at most the LSN at which
    /// what was sent ends.
    pub fn done(&self) -> u64
        ensures done { result ≡ self.now.tally.done }
        ensures within { HasCounted self.now → result + self.now.tally.refused ≤ durable self.now }
    {
        self.tally.done
    }

    /// How many were refused.
    pub fn refused(&self) -> u64
        ensures refused { result ≡ self.now.tally.refused }
        ensures within { HasCounted self.now → self.now.tally.done + result ≤ durable self.now }
    {
        self.tally.refused
    }

    /// The daemon's fault, if it has one.
    pub fn fault(&self) -> Option<DaemonFault>
        ensures { result ≡ self.now.fault }
    {
        self.fault
    }
}

/// What is left of a daemon.
#[derive(Drop)]
pub struct DaemonParts<'a, D: LogDisk, K> {
    pub flusher: Flusher<'a, D>,
    pub sink: &'a mut K,
}
