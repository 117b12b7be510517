//! A frame that is whole goes to the log.

ghost use Rattle.std.specs.Prelude.{List, ℕ, OnOk, IfErr};
ghost use Rattle.log_record.specs.declared.rec.Rec.{Rec};
ghost use Rattle.standby.specs.AppliedFrames.{Base};
ghost use Rattle.standby.specs.Following.{HasFrame, Follows, KeepsDisk, Stops};

use crate::fault::StandbyFault;
use crate::judging::judge_frame;
use crate::standby::Standby;
use log_disk::LogDisk;
use segment_file::append;

impl<'a, D: LogDisk> Standby<'a, D> {
    /// Judges the records of the frame that the reader holds, and appends it as one batch.
    pub(crate) fn apply(&mut self) -> Result<(), StandbyFault>
        requires frame { (base : Base D) × (fed : List ℕ) × (frames : List (List Rec)) × (records : List Rec)
            × HasFrame D.LogDisk base fed frames records self.old }
        ensures applied { OnOk result ((base : Base D) (fed : List ℕ) (frames : List (List Rec)) (records : List Rec)
            → HasFrame D.LogDisk base fed frames records self.old → Follows D.LogDisk base fed self.new) }
        ensures fault { IfErr result (λ fault. (base : Base D) (fed : List ℕ) (frames : List (List Rec)) (records : List Rec)
            → HasFrame D.LogDisk base fed frames records self.old → Stops D.LogDisk base fed fault self.new.disk.now) }
        ensures same { KeepsDisk self.old self.new }
    {
        if let Err(fault) = judge_frame(&mut self.judge, self.tail.next, &self.reader.batch) {
            return Err(fault);
        }
        let Ok(tail) = append(self.disk, self.tail, &mut self.reader.batch) else {
            return Err(StandbyFault::DiskFault);
        };
        self.tail = tail;
        Ok(())
    }
}
