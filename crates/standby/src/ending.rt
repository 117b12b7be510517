//! The end of a stream.

ghost use Rattle.std.specs.Prelude.{◌≡◌, List, ℕ, IfOk, IfErr};
ghost use Rattle.ship_stream.specs.Came.{IsBadBehind};
ghost use Rattle.standby.specs.AppliedFrames.{Base};
ghost use Rattle.standby.specs.Following.{Follows, HasFollowed, IsFollowing, KeepsDisk};

use crate::fault::StandbyFault;
use crate::standby::Standby;
use log_disk::LogDisk;
use lsn_space::Lsn;

impl<'a, D: LogDisk> Standby<'a, D> {
    /// The LSN at which the log ends, once the stream has. It is the last call: no more bytes come.
    pub fn end(&mut self) -> Result<Lsn, StandbyFault>
        requires ready { IsFollowing D.LogDisk self.old }
        ensures ended { IfOk result (λ lsn. (base : Base D) (fed : List ℕ) → Follows D.LogDisk base fed self.old
            → HasFollowed D.LogDisk base fed lsn self.new) }
        ensures bad { IfErr result (λ fault. (base : Base D) (fed : List ℕ) (follows : Follows D.LogDisk base fed self.old)
            → (offset : ℕ) × (fault ≡ StandbyFault.BadStream offset) × IsBadBehind follows.came fed offset) }
        ensures unchanged { self.new ≡ self.old }
        ensures same { KeepsDisk self.old self.new }
    {
        match self.reader.finish() {
            Ok(()) => Ok(self.tail.next),
            Err(bad) => Err(StandbyFault::BadStream { offset: bad.offset }),
        }
    }
}
