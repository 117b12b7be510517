//! A log with records, written behind a closed first gate and then opened.

ghost use Rattle.std.specs.Prelude.{◌≡◌, length};
ghost use Rattle.segment_file.specs.StandingLog.{IsStableGate};

use crate::heads::{CUT, NONE, UNIT, head, is_opening};
use crate::scanning::is_tail;
use log_disk::LogDisk;
use memory_disk::MemoryDisk;
use segment_cut::{add_cut, begin_cut, open_cut};
use segment_file::{Batch, DiskFault, Scan, ScanFault, Tail, open_image, scan};
use segment_head::Head;
use std::alloc::{AllocGlobal, Global};
use std::process::Abort;
use std::test::Fail;

/// The unit of the batch.
const TRANSFER: u64 = 0x0401_0001_0000_0002;

/// The head, the batch behind it, and the first gate opened.
fn write_behind<D: LogDisk>(disk: &mut D, head: &Head, batch: &mut Batch) -> Result<Tail, DiskFault>
    requires stable { D.honest disk.old → IsStableGate 0 (D.images disk.old) }
    requires head { head.now.lsn ≡ 9 }
    requires batch { length batch.old.units ≡ 1 }
{
    let tail = begin_cut(disk, head)?;
    let tail = add_cut(disk, tail, batch)?;
    open_cut(disk)?;
    Ok(tail)
}

/// A log with a head and a batch of one unit, on a disk where the device call of this number fails.
fn write_log(alloc: Global, call: u64) -> Result<(MemoryDisk, Result<Tail, DiskFault>), Fail> {
    let mut disk = MemoryDisk::make(alloc, &[], 1000, &[call])?;
    let Some(head) = head(alloc) else {
        return Err(Fail::new("no memory"));
    };
    let Ok(mut batch) = Batch::make(alloc, 1) else {
        return Err(Fail::new("no memory"));
    };
    batch.push(TRANSFER);
    let written = write_behind(&mut disk, &head, &mut batch);
    Ok((disk, written))
}

/// It is read whole, with its one record.
fn is_whole(rt: &impl Abort, found: &Scan) {
    is_opening(rt, &found.opening, (9, 1, 2));
    is_tail(rt, &[], &found.tail, (57, 10));
    assert_eq!(rt; found.units.as_slice(), [TRANSFER].as_slice());
}

/// Writes the log, unless a device call fails. Says whether it is read after a crash; else there is no log.
fn writes(rt: &impl Abort, alloc: Global, call: u64, pick: u64) -> Result<bool, Fail> {
    let (disk, written) = write_log(alloc, call)?;
    let written = written.is_ok();
    assert!(rt; written == (call > 8), "call {call}");
    let mut crashed = disk.crash(pick);
    let bytes = open_image(alloc, &mut crashed)?;
    match scan(alloc, bytes.as_slice()) {
        Ok(found) => is_whole(rt, &found),
        Err(fault) => {
            assert!(rt;
                !written && fault == ScanFault::NotALog,
                "call {call}, pick {pick}"
            );
            return Ok(false);
        }
    }
    Ok(true)
}

/// What is read after a crash at any device call is no log, or the head with the batch; after Ok the latter.
#[test]
fn writes_all_or_nothing(rt: HostRuntime) -> Result<(), Fail> {
    let (mut before, mut after) = (false, false);
    for call in [1, 2, 3, 4, 5, 6, 7, 8, NONE] {
        for pick in 0..400 {
            let is_new = writes(&rt, rt.alloc(), call, pick)?;
            before = before || !is_new;
            after = after || is_new;
        }
    }
    assert!(rt; before && after);
    Ok(())
}

#[test]
fn writes_the_log_byte_by_byte(rt: HostRuntime) -> Result<(), Fail> {
    let (disk, written) = write_log(rt.alloc(), NONE)?;
    let Ok(tail) = written else {
        return Err(Fail::new("not written"));
    };
    is_tail(&rt, &[], &tail, (57, 10));
    let mut want = Vec::from_slice(rt.alloc(), CUT.as_slice().split_at(44).0)?;
    want.extend_from_slice(&UNIT)?;
    assert_eq!(&rt; disk.bytes(), want.as_slice());
    Ok(())
}
