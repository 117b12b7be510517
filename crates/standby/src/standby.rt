//! A standby, and how it begins.

ghost use Rattle.std.specs.Prelude.{◌≡◌, [], IfOk, MatchResult};
ghost use Rattle.log_recovery.specs.Opened.{OpenedList};
ghost use Rattle.standby.specs.TakenList.{KeepsList};
ghost use Rattle.standby.specs.Following.{Follows};

use lock_core::Judge;
use log_disk::LogDisk;
use segment_file::Tail;
use std::alloc::Global;
use stream_reader::StreamReader;

/// A log that follows a stream: its disk, where it goes on in the file, what was judged of its list, and what was read of the stream.
#[derive(Drop)]
pub struct Standby<'a, D> {
    pub disk: &'a mut D,
    pub tail: Tail,
    pub judge: Judge,
    pub reader: StreamReader,
}

/// How far a stream has come.
#[derive(Clone, Copy, Debug, PartialEq, Eq)]
pub enum Fed {
    /// The end of the stream hasn't come.
    More,

    /// The stream has ended, and nothing may follow.
    Ended,
}

/// No memory was left for a standby. Its disk comes back, and no call of it was made.
#[derive(Drop)]
pub struct Unmade<'a, D> {
    pub disk: &'a mut D,
}

impl<'a, D: LogDisk> Standby<'a, D> {
    /// A standby that no byte has come to. The tail is as `settle` or `append` leaves it, and the judge has taken the list that each
    /// image holds. It asks for room for the longest frame.
    pub fn make(
        alloc: Global,
        disk: &'a mut D,
        tail: Tail,
        judge: Judge,
    ) -> Result<Standby<'a, D>, Unmade<'a, D>>
        ensures disk { MatchResult result (λ s. s.disk ≡ disk.entry) (λ unmade. unmade.disk ≡ disk.entry) }
        ensures same { MatchResult result (λ s. s.disk.ghost_name ≡ disk.entry.ghost_name)
            (λ unmade. unmade.disk.ghost_name ≡ disk.entry.ghost_name) }
        ensures follows { IfOk result (λ s. (list : OpenedList) → KeepsList D.LogDisk list judge tail disk.old
            → Follows D.LogDisk (record { list = list; at = tail.at; disk = disk.old }) [] s) }
    {
        match StreamReader::make(alloc) {
            Ok(reader) => Ok(Standby {
                disk,
                tail,
                judge,
                reader,
            }),
            Err(_) => Err(Unmade { disk }),
        }
    }
}
