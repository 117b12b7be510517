//! The records of a frame, judged one by one.

ghost use Rattle.std.specs.Prelude.{◌≡◌, ◌≤◌, ◌+◌, List, length, OnOk, IfErr};
ghost use Rattle.lsn_space.specs.declared.lsn.TheConstants.{LAST};
ghost use Rattle.log_record.specs.declared.rec.Rec.{Rec};
ghost use Rattle.log_record.specs.LogList.{AreUnitsOf};
ghost use Rattle.log_recovery.specs.Opened.{OpenedList, list_end, with_records};
ghost use Rattle.standby.specs.TakenList.{HasTakenList, IsFrameFault, record_fault};

use crate::fault::StandbyFault;
use lock_core::{Judge, JudgeFault};
use lsn_space::Lsn;
use segment_file::Batch;
use stream_reader::record_at;

/// Judges the records that the batch spells, the first of which starts at this LSN. After a fault the judge is spent.
pub(crate) fn judge_frame(judge: &mut Judge, from: Lsn, batch: &Batch) -> Result<(), StandbyFault>
    requires spelled { (records : List Rec) × AreUnitsOf batch.now.units records }
    requires taken { (list : OpenedList) × HasTakenList list judge.old × (from ≡ list_end list) }
    requires fits { from + length batch.now.units ≤ LAST }
    ensures taken { OnOk result ((list : OpenedList) (records : List Rec) → HasTakenList list judge.old → from ≡ list_end list
        → AreUnitsOf batch.now.units records → HasTakenList (with_records list records) judge.new) }
    ensures fault { IfErr result (λ fault. (list : OpenedList) (records : List Rec) → HasTakenList list judge.old
        → from ≡ list_end list → AreUnitsOf batch.now.units records → IsFrameFault list records fault) }
{
    let mut at = 0;
    'records: while at < batch.count() {
        let lsn = Lsn::new(from.units() + at);
        let Ok((rec, size)) = record_at(batch, at) else {
            unreachable!()
        };
        match judge.take(lsn, &rec) {
            Ok(()) => at += size,
            Err(fault) => return Err(fault_of_record(lsn, fault)),
        }
    }
    Ok(())
}

/// Why the stream isn't applied, where the judge doesn't take the record at this LSN.
fn fault_of_record(lsn: Lsn, fault: JudgeFault) -> StandbyFault
    ensures is { result ≡ record_fault lsn fault }
    ensures memory { result ≡ StandbyFault.NoMemory → fault ≡ JudgeFault.NoMemory }
{
    match fault {
        JudgeFault::NoMemory => StandbyFault::NoMemory,
        JudgeFault::Why(why) => StandbyFault::StreamUnlawful { lsn, why },
    }
}
