//! What a file begins with, up to its second gate.

ghost use Rattle.std.specs.Prelude.{IfOk, IfErr};
ghost use Rattle.segment_file.specs.Scan.{IsScanFaultOf};
ghost use Rattle.segment_file.specs.Taking.{TakesFront};

use crate::gate::after_magic;
use crate::scan_result::ScanFault;
use crate::taking::{BatchFault, take_batch};
use lsn_space::{Lsn, Opening};
use segment_head::{SnapshotFault, after_head_magic, take_snapshot};
use std::alloc::Global;

/// What stands before the list, the first units of the list, and the bytes of the file from its second gate on.
#[derive(Drop)]
pub struct Front<'a> {
    pub opening: Opening,
    pub units: Vec<u64>,
    pub rest: &'a [u8],
}

/// What a file begins with, by its format. In the first nothing stands before the list, and its first batch follows the magic
/// bytes; in the second a head says what does, and has no units.
pub fn take_front(alloc: Global, bytes: &[u8]) -> Result<Front, ScanFault>
    ensures found { IfOk result (λ front. TakesFront bytes.now front.opening front.units.items front.rest.now) }
    ensures fault { IfErr result (IsScanFaultOf bytes.now) }
{
    if let Some(body) = after_magic(bytes) {
        let Ok(opening) = Opening::none(alloc) else {
            return Err(ScanFault::NoMemory);
        };
        let mut units = Vec::new(alloc);
        match take_batch(Lsn::new(0), &mut units, body) {
            Ok(rest) => {
                return Ok(Front {
                    opening,
                    units,
                    rest,
                });
            }
            Err(BatchFault::Bad) => return Err(ScanFault::BadBatch { offset: 0 }),
            Err(BatchFault::NoMemory) => return Err(ScanFault::NoMemory),
        }
    }
    let Some(body) = after_head_magic(bytes) else {
        return Err(ScanFault::NotALog);
    };
    match take_snapshot(alloc, body) {
        Ok((opening, rest)) => Ok(Front {
            opening,
            units: Vec::new(alloc),
            rest,
        }),
        Err(SnapshotFault::Bad) => Err(ScanFault::BadSnapshot),
        Err(SnapshotFault::NoMemory) => Err(ScanFault::NoMemory),
    }
}
