//! The bytes of a stream, in whatever pieces they come.

ghost use Rattle.std.specs.Prelude.{◌≡◌, ◌≢◌, ◌<◌, ◌≤◌, ◌++◌, List, ℕ, length, take, IfOk, IfErr, IfSome, IfNone};
ghost use Rattle.log_disk.specs.Disk.{Leaves};
ghost use Rattle.standby.specs.AppliedFrames.{Base};
ghost use Rattle.standby.specs.Following.{Follows, HoldsFollowed, IsFollowing, KeepsDisk, StopsBehind, TellsEnd};

use crate::fault::StandbyFault;
use crate::standby::{Fed, Standby};
use log_disk::LogDisk;
use lsn_space::Lsn;
use stream_reader::Part;

impl<'a, D: LogDisk> Standby<'a, D> {
    /// Takes the next bytes of the stream, which may be none. Each frame that is whole now is judged and then appended as one batch.
    /// After a fault the standby is spent.
    pub fn feed(&mut self, bytes: &[u8]) -> Result<Fed, StandbyFault>
        requires ready { IsFollowing D.LogDisk self.old }
        ensures follows { IfOk result (λ _. (base : Base D) (fed : List ℕ) → Follows D.LogDisk base fed self.old
            → Follows D.LogDisk base (fed ++ bytes.now) self.new) }
        ensures ended { IfOk result (λ answer. (base : Base D) (fed : List ℕ) → Follows D.LogDisk base fed self.old
            → TellsEnd (fed ++ bytes.now) answer) }
        ensures stops { IfErr result (λ fault. StopsBehind D.LogDisk self.old bytes.now fault self.new.disk.now) }
        ensures images { (base : Base D) (fed : List ℕ) → Follows D.LogDisk base fed self.old → D.honest base.disk
            → Leaves D.moment D.images_since (HoldsFollowed base.list (fed ++ bytes.now)) base.disk self.new.disk.now }
        ensures same { KeepsDisk self.old self.new }
    {
        let mut rest = bytes;
        'parts: while !rest.is_empty() {
            match self.take_part(rest) {
                Ok(used) => rest = rest.split_at(used).1,
                Err(fault) => return Err(fault),
            }
        }
        Ok(self.progress())
    }

    /// Takes bytes up to the end of a part, or all of them where they end before it, and answers how many. What is whole now is acted
    /// on.
    fn take_part(&mut self, bytes: &[u8]) -> Result<usize, StandbyFault>
        requires ready { IsFollowing D.LogDisk self.old }
        requires some { 0 < length bytes.now }
        ensures some { IfOk result (λ used. 0 < used) }
        ensures within { IfOk result (λ used. used ≤ length bytes.now) }
        ensures follows { IfOk result (λ used. (base : Base D) (fed : List ℕ) → Follows D.LogDisk base fed self.old
            → Follows D.LogDisk base (fed ++ take used bytes.now) self.new) }
        ensures stops { IfErr result (λ fault. StopsBehind D.LogDisk self.old bytes.now fault self.new.disk.now) }
        ensures same { KeepsDisk self.old self.new }
    {
        let (used, part) = match self.reader.take(bytes) {
            Ok(taken) => taken,
            Err(bad) => return Err(StandbyFault::BadStream { offset: bad.offset }),
        };
        match part {
            Part::Head { first } => match self.find_gap(first) {
                Some(gap) => Err(gap),
                None => Ok(used),
            },
            Part::Frame => match self.apply() {
                Err(fault) => Err(fault),
                Ok(()) => Ok(used),
            },
            Part::End => Ok(used),
            Part::More => Ok(used),
        }
    }

    /// The gap, where a stream that begins at this LSN doesn't begin where the log ends.
    fn find_gap(&self, first: Lsn) -> Option<StandbyFault>
        ensures none { IfNone result (first ≡ self.now.tail.next) }
        ensures gap { IfSome result (λ fault. (fault ≡ StandbyFault.Gap self.now.tail.next first) × (first ≢ self.now.tail.next)) }
    {
        let have = self.tail.next;
        if first == have {
            None
        } else {
            Some(StandbyFault::Gap { have, from: first })
        }
    }

    /// Whether the stream has ended.
    fn progress(&self) -> Fed
        ensures { (base : Base D) (fed : List ℕ) → Follows D.LogDisk base fed self.now → TellsEnd fed result }
    {
        if self.reader.is_ended() {
            Fed::Ended
        } else {
            Fed::More
        }
    }
}
