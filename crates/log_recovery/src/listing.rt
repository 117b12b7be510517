//! Whether a log's bytes hold a list of records.

ghost use Rattle.std.specs.Prelude.{List, ℕ, IfOk, IfErr};
ghost use Rattle.segment_file.specs.Scan.{Scans};
ghost use Rattle.log_recovery.specs.Recovery.{ListsBytes, IsListedFaultOf};

use crate::list_result::Listed;
use crate::places::{begin_of, first_bad};
use crate::recovery::{RecoverFault, scan_fault};
use segment_file::{Scan, scan};
use std::alloc::Global;

/// The list of records that the bytes hold, lawful or not. The fault is never `Unlawful`.
pub fn listed(alloc: Global, bytes: &[u8]) -> Result<Listed, RecoverFault>
    ensures found { IfOk result (λ listed. ListsBytes listed bytes.now) }
    ensures fault { IfErr result (IsListedFaultOf bytes.now) }
{
    match scan(alloc, bytes) {
        Ok(scan) => listed_scan(scan),
        Err(fault) => Err(scan_fault(fault)),
    }
}

/// The list of records that was scanned, lawful or not. The fault is `BadRec`.
pub fn listed_scan(scan: Scan) -> Result<Listed, RecoverFault>
    requires scanned { (bytes : List ℕ) × Scans scan bytes }
    ensures found { (bytes : List ℕ) → Scans scan bytes → IfOk result (λ listed. ListsBytes listed bytes) }
    ensures fault { (bytes : List ℕ) → Scans scan bytes → IfErr result (IsListedFaultOf bytes) }
{
    let begin = begin_of(&scan.opening);
    match first_bad(begin, scan.units.as_slice(), scan.units.as_slice()) {
        Some(lsn) => Err(RecoverFault::BadRec { lsn }),
        None => Ok(Listed {
            opening: scan.opening,
            units: scan.units,
            tail: scan.tail,
        }),
    }
}
