//! The scan of a file's bytes, by the grammar of both formats.

ghost use Rattle.std.specs.Prelude.{◌≡◌, ◌↔◌, IfOk, IfErr, List, ℕ};
ghost use Rattle.segment_file.specs.File.{HoldsUnits, BeginsAsLog};
ghost use Rattle.segment_file.specs.Log.{Log, whole_log, HoldsLog, IsBadSnapshot, IsBadBatch};
ghost use Rattle.segment_file.specs.Scan.{Scans, IsScanFaultOf};

use crate::front::{Front, take_front};
use crate::gate::after_gate;
use crate::scan_result::{Scan, ScanFault, Tail};
use crate::taking::{BatchFault, take_batch};
use crate::units::LogUnits;
use lsn_space::Lsn;
use std::alloc::Global;

/// What a log file holds, up to its first gate that isn't open. Whatever follows that gate isn't read.
pub fn scan(alloc: Global, bytes: &[u8]) -> Result<Scan, ScanFault>
    ensures found { IfOk result (λ scan. Scans scan bytes.now) }
    ensures fault { IfErr result (IsScanFaultOf bytes.now) }
{
    let Front {
        opening,
        mut units,
        mut rest,
    } = match take_front(alloc, bytes) {
        Ok(front) => front,
        Err(fault) => return Err(fault),
    };
    let begin = opening.lsn;
    'batches: while let Some(body) = after_gate(rest) {
        let offset = (bytes.len() - rest.len()) as u64;
        rest = match take_batch(begin, &mut units, body) {
            Ok(after) => after,
            Err(BatchFault::Bad) => return Err(ScanFault::BadBatch { offset }),
            Err(BatchFault::NoMemory) => return Err(ScanFault::NoMemory),
        };
    }
    let tail = Tail {
        at: (bytes.len() - rest.len()) as u64,
        next: Lsn::new(begin.units() + units.len() as u32),
    };
    Ok(Scan {
        opening,
        units: LogUnits::new(units),
        tail,
    })
}

/// A law: what a scan answers, but for want of memory, is a function of the bytes. They hold one opening with one list of units
/// at most, and then have none of the faults; no bytes have two faults; a bad batch is the first one.
pub fn one_reading()
    ensures log { (bytes : List ℕ) (a b : Log) → HoldsLog bytes a → HoldsLog bytes b → a ≡ b }
    ensures begins { (bytes : List ℕ) (log : Log) → HoldsLog bytes log → BeginsAsLog bytes }
    ensures snapshot { (bytes : List ℕ) (log : Log) → HoldsLog bytes log → IsBadSnapshot bytes → ⊥ }
    ensures bad { (bytes : List ℕ) (log : Log) (offset : ℕ) → HoldsLog bytes log → IsBadBatch bytes offset → ⊥ }
    ensures one { (bytes : List ℕ) (offset : ℕ) → IsBadSnapshot bytes → IsBadBatch bytes offset → ⊥ }
    ensures place { (bytes : List ℕ) (a b : ℕ) → IsBadBatch bytes a → IsBadBatch bytes b → a ≡ b }
{}

/// A law: a log with nothing before it is a file of the first format.
pub fn first_format()
    ensures { (bytes units : List ℕ) → HoldsUnits bytes units ↔ HoldsLog bytes (whole_log units) }
{}
