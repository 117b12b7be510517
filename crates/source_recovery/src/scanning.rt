//! All units of a log that a source gives: of its bytes nothing else is kept.

ghost use Rattle.std.specs.Prelude.{◌≡◌, ℕ, List, IfOk, IfErr, IsErrOf};
ghost use Rattle.log_disk.specs.Faults.{CountsWhere};
ghost use Rattle.log_disk.specs.Streams.{ReadsAll};
ghost use Rattle.log_recovery.specs.Recovery.{ListsBytes, Recovers, TakesBytes};
ghost use Rattle.segment_file.specs.Scan.{Scans};
ghost use Rattle.source_recovery.specs.Recovery.{IsListedSourceFaultOf, IsSourceFaultOf};

use crate::batches::LogReader;
use crate::recovery::SourceFault;
use lock_core::{Judge, TakesRecords};
use log_disk::Source;
use log_recovery::{Listed, Recovered, listed_scan, recovered_of, taken_scan};
use segment_file::{LogUnits, Scan};
use std::alloc::Global;

/// What the log file holds that the source gives, up to its first gate that isn't open: what a scan of all its bytes answers.
fn scan_source<S: Source>(alloc: Global, source: &mut S) -> Result<Scan, SourceFault>
    ensures found { IfOk result (λ scan. (bytes : List ℕ) × ReadsAll (S.left source.old) (S.left source.new) bytes × Scans scan bytes) }
    ensures fault { IfErr result (IsListedSourceFaultOf (S.left source.old) (S.left source.new)) }
    ensures failed { CountsWhere (IsErrOf result SourceFault.Failed) (S.faults source.old) (S.faults source.new) }
{
    let (mut reader, opening, mut units) = LogReader::begin(alloc, source)?;
    'batches: loop {
        if !reader.next_batch(source, &mut units)? {
            break;
        }
    }
    Ok(Scan {
        opening,
        units: LogUnits::new(units),
        tail: reader.tail(),
    })
}

/// The list of records of the log that the source gives, lawful or not: what `listed` answers of all its bytes.
pub fn list_source<S: Source>(alloc: Global, source: &mut S) -> Result<Listed, SourceFault>
    ensures found { IfOk result (λ listed. (bytes : List ℕ) × ReadsAll (S.left source.old) (S.left source.new) bytes
        × ListsBytes listed bytes) }
    ensures fault { IfErr result (IsListedSourceFaultOf (S.left source.old) (S.left source.new)) }
    ensures failed { CountsWhere (IsErrOf result SourceFault.Failed) (S.faults source.old) (S.faults source.new) }
{
    let scan = scan_source(alloc, source)?;
    match listed_scan(scan) {
        Ok(listed) => Ok(listed),
        Err(fault) => Err(SourceFault::Log(fault)),
    }
}

/// What has taken the lawful list of the log that the source gives, and the list: what `taken` answers of all its bytes.
pub fn take_source<T: TakesRecords, S: Source>(
    alloc: Global,
    source: &mut S,
) -> Result<(T, Listed), SourceFault>
    ensures found { IfOk result (λ both. (bytes : List ℕ) × ReadsAll (S.left source.old) (S.left source.new) bytes
        × TakesBytes T.has_taken both.0 both.1 bytes) }
    ensures fault { IfErr result (IsSourceFaultOf (S.left source.old) (S.left source.new)) }
    ensures failed { CountsWhere (IsErrOf result SourceFault.Failed) (S.faults source.old) (S.faults source.new) }
{
    let scan = scan_source(alloc, source)?;
    match taken_scan(alloc, scan) {
        Ok(both) => Ok(both),
        Err(fault) => Err(SourceFault::Log(fault)),
    }
}

/// The accounts of the lawful list of the log that the source gives, and the list.
pub fn recover_source_list<S: Source>(
    alloc: Global,
    source: &mut S,
) -> Result<(Recovered, Listed), SourceFault>
    ensures found { IfOk result (λ both. (bytes : List ℕ) × ReadsAll (S.left source.old) (S.left source.new) bytes
        × Recovers both.0 bytes × ListsBytes both.1 bytes) }
    ensures fault { IfErr result (IsSourceFaultOf (S.left source.old) (S.left source.new)) }
    ensures failed { CountsWhere (IsErrOf result SourceFault.Failed) (S.faults source.old) (S.faults source.new) }
{
    let (judge, listed) = take_source::<Judge, S>(alloc, source)?;
    Ok((recovered_of(judge, listed.tail), listed))
}
