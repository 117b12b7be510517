//! The boundaries of a list: where a record starts, and where the list ends.

ghost use Rattle.std.specs.Prelude.{◌≡◌, ◌⊎◌, ◌+◌, ◌≤◌, List, length};
ghost use Rattle.log_record.specs.LogList.{AreUnitsOf};
ghost use Rattle.log_record.specs.declared.rec.Rec.{Rec};
ghost use Rattle.lsn_space.specs.declared.lsn.TheConstants.{LAST};
ghost use Rattle.log_recovery.specs.Boundaries.{FindsRest};
ghost use Rattle.log_recovery.specs.ListedRecords.{IsRecords};
ghost use Rattle.log_recovery.specs.Opened.{IsListBoundary};

use crate::places::begin_of;
use log_record::read;
use lsn_space::{Lsn, Opening};

/// The units from this LSN on of a list whose records these units spell, where the LSN is a boundary of the list: the start of
/// a record, or the end, behind which there are none.
pub fn units_from<'a>(opening: &Opening, units: &'a [u64], lsn: Lsn) -> Option<&'a [u64]>
    requires records { IsRecords units.now }
    requires fits { opening.now.lsn + length units.now ≤ LAST }
    ensures { FindsRest opening.now units.now lsn result (λ rest. rest.now) }
{
    units_behind(opening, units, begin_of(opening), lsn)
}

/// The same, where a boundary is known from which on the LSN is sought: where the list begins, or one at or below the LSN.
pub fn units_behind<'a>(
    opening: &Opening,
    units: &'a [u64],
    known: Lsn,
    lsn: Lsn,
) -> Option<&'a [u64]>
    requires records { IsRecords units.now }
    requires fits { opening.now.lsn + length units.now ≤ LAST }
    requires known { (records : List Rec) → AreUnitsOf units.now records
        → IsListBoundary (record { opening = opening.now; records = records }) known }
    requires below { (known ≡ opening.now.lsn) ⊎ (known ≤ lsn) }
    ensures { FindsRest opening.now units.now lsn result (λ rest. rest.now) }
{
    let goal = lsn.units();
    let mut at = known.units();
    let passed = at - begin_of(opening).units();
    let mut rest = units.split_at(passed as usize).1;
    'records: while at < goal {
        let Ok((_, size)) = read(rest) else {
            return None;
        };
        at += size as u32;
        rest = rest.split_at(size).1;
    }
    if at == goal { Some(rest) } else { None }
}
