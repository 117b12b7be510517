//! What a crash leaves on a disk in memory, by its pick.

use log_disk::LogDisk;
use memory_disk::MemoryDisk;
use std::alloc::Global;
use std::process::Abort;
use std::test::Fail;

/// A crash by this pick leaves these bytes on the disk.
fn leaves(rt: &impl Abort, disk: MemoryDisk, pick: u64, want: &[u8]) {
    assert_eq!(rt; disk.crash(pick).bytes(), want, "pick {pick}");
}

const OF_ONE_WRITE: &[(u64, &[u8])] = &[
    (0, b"0123"),
    (1, b"01a3"),
    (2, b"01ab"),
    (3, b"01abc"),
    (4, b"01abcd"),
    (9, b"01\0bcd"),
    (24, b"01\0\0\0\0"),
    (4 + 5 + 25 * 0x4f, b"01Obcd"),
];

fn one_write(alloc: Global) -> Result<MemoryDisk, Fail> {
    let mut disk = MemoryDisk::make(alloc, b"0123", 100, &[])?;
    let Ok(()) = disk.write_at(2, b"abcd") else {
        return Err(Fail::new("a write fails"));
    };
    Ok(disk)
}

#[test]
fn leaves_what_the_pick_says(rt: HostRuntime) -> Result<(), Fail> {
    for (pick, want) in OF_ONE_WRITE {
        leaves(&rt, one_write(rt.alloc())?, *pick, want);
    }
    Ok(())
}

const OF_A_WRITE_OVER_SYNCED: &[(u64, &[u8])] = &[
    (0, b"abc"),
    (1, b"Xbc"),
    (3, b"\0bc"),
    (3 + 4 * 0x4f, b"Obc"),
];

fn write_over_synced(alloc: Global) -> Result<MemoryDisk, Fail> {
    let mut disk = MemoryDisk::make(alloc, b"", 200, &[])?;
    let Ok(()) = disk.write_at(0, b"abc") else {
        return Err(Fail::new("a write fails"));
    };
    let Ok(()) = disk.sync() else {
        return Err(Fail::new("a sync fails"));
    };
    let Ok(()) = disk.write_at(0, b"X") else {
        return Err(Fail::new("a write fails"));
    };
    Ok(disk)
}

#[test]
fn leaves_what_was_synced(rt: HostRuntime) -> Result<(), Fail> {
    for (pick, want) in OF_A_WRITE_OVER_SYNCED {
        leaves(&rt, write_over_synced(rt.alloc())?, *pick, want);
    }
    Ok(())
}

const OF_TWO_WRITES: &[(u64, &[u8])] = &[
    (0, b"0123"),
    (2, b"0123ab"),
    (2 + 256 * 9, b"0123abc"),
    (1 + 256 * 6, b"0123a"),
];

fn two_writes(alloc: Global) -> Result<MemoryDisk, Fail> {
    let mut disk = MemoryDisk::make(alloc, b"0123", 100, &[])?;
    let Ok(()) = disk.write_at(4, b"ab") else {
        return Err(Fail::new("a write fails"));
    };
    let Ok(()) = disk.write_at(6, b"c") else {
        return Err(Fail::new("a write fails"));
    };
    Ok(disk)
}

#[test]
fn loses_what_stands_behind_a_lost_write(rt: HostRuntime) -> Result<(), Fail> {
    for (pick, want) in OF_TWO_WRITES {
        leaves(&rt, two_writes(rt.alloc())?, *pick, want);
    }
    Ok(())
}
