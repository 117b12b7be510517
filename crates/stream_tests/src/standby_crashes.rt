//! A standby whose disk fails, and what is read after a crash.

use crate::standby_rig::{SHIPPED, accounts_log, follow};
use lsn_space::Lsn;
use memory_disk::MemoryDisk;
use standby::{Fed, StandbyFault};
use std::alloc::Global;
use std::process::Abort;
use std::test::Fail;

/// The calls of the disk: to open the log, to settle it, and for a frame.
const CALLS: u64 = 8;

/// The number of a device call that is never made.
const NONE: u64 = 99;

/// The end of the log that is read.
fn end_read(alloc: Global, disk: MemoryDisk, pick: u64) -> Result<u32, Fail> {
    let mut disk = disk.crash(pick);
    let bytes = segment_file::open_image(alloc, &mut disk)?;
    match log_recovery::recover(alloc, bytes.as_slice()) {
        Ok(recovered) => Ok(recovered.lsn.units()),
        Err(_) => Err(Fail::new("no log")),
    }
}

/// The transfer is followed, unless this device call fails. Answers where the log ends that is read after a crash.
fn follows(rt: &impl Abort, alloc: Global, call: u64, pick: u64) -> Result<u32, Fail> {
    let log = accounts_log(alloc)?;
    let mut disk = MemoryDisk::make(alloc, log.as_slice(), 1000, &[call])?;
    let got = follow(alloc, &mut disk, &SHIPPED, 7);
    if call > CALLS {
        assert_eq!(rt; got, Some(Ok((Fed::Ended, Lsn::new(9)))));
    } else if call > CALLS - 4 {
        assert_eq!(rt; got, Some(Err(StandbyFault::DiskFault)), "call {call}");
    } else {
        assert_eq!(rt; got, None, "call {call}");
    }
    end_read(alloc, disk, pick)
}

#[test]
fn a_frame_is_there_whole_or_not_at_all(rt: HostRuntime) -> Result<(), Fail> {
    for call in [1, 2, 3, 4, 5, 6, 7, CALLS, NONE] {
        for pick in 0..100 {
            let end = follows(&rt, rt.alloc(), call, pick)?;
            let fits = end == 9 || (end == 4 && call <= CALLS);
            assert!(rt; fits, "call {call}, pick {pick}: the log ends at {end}");
        }
    }
    Ok(())
}
