//! The recovery of a log from its bytes: the accounts of the lawful list that they hold, or why there is none.

ghost use Rattle.std.specs.Prelude.{◌≡◌, ◌⊎◌, ◌≤◌, ◌^◌, List, ℕ, IfOk, IfErr};
ghost use Rattle.log_recovery.specs.declared.recovery.RecoverFault.{RecoverFault};
ghost use Rattle.segment_file.specs.Log.{Log, HoldsLog};
ghost use Rattle.segment_file.specs.Scan.{IsScanFaultOf, Scans};
ghost use Rattle.log_recovery.specs.JudgedUnits.{IsUnitsFaultOf};
ghost use Rattle.log_recovery.specs.Opened.{OpenedList};
ghost use Rattle.log_recovery.specs.Recovery.{HoldsList, HoldsLawful, JudgesBytes, ListsBytes, TakesBytes, Recovers};
ghost use Rattle.log_recovery.specs.Recovery.{TellsRecovered, IsFaultOf, IsListedFaultOf};

use crate::judging::{UnitsFault, taken_units};
use crate::list_result::Listed;
use lock_core::{Judge, TakesRecords, Why};
use lsn_space::{Balances, Lsn};
use segment_file::{Scan, ScanFault, Tail, scan};
use std::alloc::Global;

/// What the bytes of a log say.
#[derive(Drop)]
pub struct Recovered {
    /// The end of the list of records.
    pub lsn: Lsn,

    /// Where the file goes on.
    pub tail: Tail,

    /// One more than the greatest transaction number.
    pub next_txn: u64,

    /// The balance and the end of the last Commit of each account.
    pub accounts: Balances,
}

/// Why nothing is recovered. Of the faults that bytes have, it is the first in this order.
#[derive(Clone, Copy, Debug, PartialEq, Eq)]
pub enum RecoverFault {
    /// The bytes don't begin with an open gate and the magic bytes of a format.
    NotALog,

    /// In a file of the second format the head is cut, or a number in it is out of its range.
    BadSnapshot,

    /// No batch stands behind the open gate at this place in the file.
    BadBatch { offset: u64 },

    /// Records lead to this LSN, and the units from there on begin with none.
    BadRec { lsn: Lsn },

    /// The record that starts at this LSN is the first that fails a test, and this is the first test that it fails.
    Unlawful { lsn: Lsn, why: Why },

    NoMemory,
}

/// The fault of recovery that a fault of a scan is.
pub fn scan_fault(fault: ScanFault) -> RecoverFault
    ensures fault { (bytes : List ℕ) → IsScanFaultOf bytes fault → IsFaultOf bytes result }
    ensures listed { (bytes : List ℕ) → IsScanFaultOf bytes fault → IsListedFaultOf bytes result }
    ensures memory { result ≡ RecoverFault.NoMemory → fault ≡ ScanFault.NoMemory }
{
    match fault {
        ScanFault::NotALog => RecoverFault::NotALog,
        ScanFault::BadSnapshot => RecoverFault::BadSnapshot,
        ScanFault::BadBatch { offset } => RecoverFault::BadBatch { offset },
        ScanFault::NoMemory => RecoverFault::NoMemory,
    }
}

/// The fault of recovery that a fault of a log's units is.
pub fn units_fault(fault: UnitsFault) -> RecoverFault
    ensures fault { (bytes : List ℕ) (log : Log) → HoldsLog bytes log → IsUnitsFaultOf log.opening log.units fault → IsFaultOf bytes result }
    ensures memory { result ≡ RecoverFault.NoMemory → fault ≡ UnitsFault.NoMemory }
{
    match fault {
        UnitsFault::BadRec { lsn } => RecoverFault::BadRec { lsn },
        UnitsFault::Unlawful { lsn, why } => RecoverFault::Unlawful { lsn, why },
        UnitsFault::NoMemory => RecoverFault::NoMemory,
    }
}

/// What the bytes hold, in units.
fn scanned(alloc: Global, bytes: &[u8]) -> Result<Scan, RecoverFault>
    ensures found { IfOk result (λ scan. Scans scan bytes.now) }
    ensures fault { IfErr result (IsFaultOf bytes.now) }
{
    match scan(alloc, bytes) {
        Ok(scan) => Ok(scan),
        Err(fault) => Err(scan_fault(fault)),
    }
}

/// What has taken the lawful list that was scanned, and the list.
pub fn taken_scan<T: TakesRecords>(alloc: Global, scan: Scan) -> Result<(T, Listed), RecoverFault>
    requires scanned { (bytes : List ℕ) × Scans scan bytes }
    ensures found { (bytes : List ℕ) → Scans scan bytes → IfOk result (λ both. TakesBytes T.has_taken both.0 both.1 bytes) }
    ensures fault { (bytes : List ℕ) → Scans scan bytes → IfErr result (IsFaultOf bytes) }
{
    match taken_units(alloc, &scan.opening, scan.units.as_slice()) {
        Ok(taker) => Ok((
            taker,
            Listed {
                opening: scan.opening,
                units: scan.units,
                tail: scan.tail,
            },
        )),
        Err(fault) => Err(units_fault(fault)),
    }
}

/// What has taken the lawful list that the bytes hold, and the list.
pub fn taken<T: TakesRecords>(alloc: Global, bytes: &[u8]) -> Result<(T, Listed), RecoverFault>
    ensures found { IfOk result (λ both. TakesBytes T.has_taken both.0 both.1 bytes.now) }
    ensures fault { IfErr result (IsFaultOf bytes.now) }
{
    match scanned(alloc, bytes) {
        Ok(scan) => taken_scan(alloc, scan),
        Err(fault) => Err(fault),
    }
}

/// The same of bytes that nobody reads behind this call. Their memory goes before the records are taken, which may want as much.
pub fn taken_owned<T: TakesRecords>(
    alloc: Global,
    bytes: Vec<u8>,
) -> Result<(T, Listed), RecoverFault>
    ensures found { IfOk result (λ both. TakesBytes T.has_taken both.0 both.1 bytes.items) }
    ensures fault { IfErr result (IsFaultOf bytes.items) }
{
    match scanned(alloc, bytes.as_slice()) {
        Ok(scan) => {
            drop(bytes);
            taken_scan(alloc, scan)
        }
        Err(fault) => Err(fault),
    }
}

/// A judge that has taken the lawful list that the bytes hold, and where the file goes on.
pub fn judged(alloc: Global, bytes: &[u8]) -> Result<(Judge, Tail), RecoverFault>
    ensures found { IfOk result (λ both. JudgesBytes both.0 both.1 bytes.now) }
    ensures fault { IfErr result (IsFaultOf bytes.now) }
{
    match taken(alloc, bytes) {
        Ok((judge, listed)) => Ok((judge, listed.tail)),
        Err(fault) => Err(fault),
    }
}

/// The accounts of the lawful list that the bytes hold.
pub fn recover(alloc: Global, bytes: &[u8]) -> Result<Recovered, RecoverFault>
    ensures { TellsRecovered bytes.now result }
{
    match judged(alloc, bytes) {
        Ok((judge, tail)) => Ok(recovered_of(judge, tail)),
        Err(fault) => Err(fault),
    }
}

/// The same of bytes that nobody reads behind this call.
pub fn recover_owned(alloc: Global, bytes: Vec<u8>) -> Result<Recovered, RecoverFault>
    ensures { TellsRecovered bytes.items result }
{
    match recover_list(alloc, bytes) {
        Ok((recovered, _)) => Ok(recovered),
        Err(fault) => Err(fault),
    }
}

/// The accounts of the lawful list that the bytes hold, and the list, for which they are read once.
pub fn recover_list(alloc: Global, bytes: Vec<u8>) -> Result<(Recovered, Listed), RecoverFault>
    ensures found { IfOk result (λ both. Recovers both.0 bytes.items) }
    ensures listed { IfOk result (λ both. ListsBytes both.1 bytes.items) }
    ensures number { IfOk result (λ both. both.0.next_txn ≤ 2 ^ 32) }
    ensures fault { IfErr result (IsFaultOf bytes.items) }
{
    match taken_owned(alloc, bytes) {
        Ok((judge, listed)) => Ok((recovered_of(judge, listed.tail), listed)),
        Err(fault) => Err(fault),
    }
}

/// What a judge tells of the list that it has taken, and where the file goes on.
pub fn recovered_of(judge: Judge, tail: Tail) -> Recovered
    ensures found { (bytes : List ℕ) → JudgesBytes judge tail bytes → Recovers result bytes }
    ensures number { result.next_txn ≤ 2 ^ 32 }
{
    Recovered {
        lsn: tail.next,
        tail,
        next_txn: u64::from(judge.greatest_txn()) + 1,
        accounts: judge.into_accounts(),
    }
}

/// A law: what `recover` answers is a function of the bytes, but for want of memory. They hold one opening with one list at most; where
/// they hold one, nothing hides it from `listed`; where it is lawful they have no fault; and no bytes have two faults.
pub fn one_answer()
    ensures list { (bytes : List ℕ) (a b : OpenedList) → HoldsList bytes a → HoldsList bytes b → a ≡ b }
    ensures listed { (bytes : List ℕ) (list : OpenedList) (fault : RecoverFault) → HoldsList bytes list → IsListedFaultOf bytes fault
        → fault ≡ RecoverFault.NoMemory }
    ensures lawful { (bytes : List ℕ) (list : OpenedList) (fault : RecoverFault) → HoldsLawful bytes list → IsFaultOf bytes fault
        → fault ≡ RecoverFault.NoMemory }
    ensures fault { (bytes : List ℕ) (f g : RecoverFault) → IsFaultOf bytes f → IsFaultOf bytes g
        → (f ≡ g) ⊎ (f ≡ RecoverFault.NoMemory) ⊎ (g ≡ RecoverFault.NoMemory) }
{}
