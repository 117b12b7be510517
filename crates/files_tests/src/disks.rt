//! Disks in memory, and what both kinds of disk have alike.

use log_disk::{Failed, LogDisk};
use memory_disk::MemoryDisk;
use std::process::Abort;
use std::test::Fail;
use system_disk::FileDisk;

fn store<D: LogDisk>(disk: &mut D, bytes: &[u8]) -> Result<u64, Failed> {
    disk.write_at(0, bytes)?;
    disk.sync()?;
    disk.len()
}

/// This disk stored so many bytes, or failed.
fn has_stored(rt: &impl Abort, disk: &str, found: Result<u64, Failed>, want: Result<u64, Failed>) {
    assert_eq!(rt; found, want, "{disk}");
}

#[test]
fn is_met_by_both_disks(rt: HostRuntime) -> Result<(), Fail> {
    let mut memory = MemoryDisk::make(rt.alloc(), b"", 64, &[])?;
    has_stored(&rt, "in memory", store(&mut memory, b"abc"), Ok(3));
    let mut no_file = FileDisk::make(rt);
    has_stored(&rt, "no file", store(&mut no_file, b"abc"), Err(Failed));
    Ok(())
}

/// Whether a write succeeds, and then a sync.
fn stores(disk: &mut MemoryDisk) -> (bool, bool) {
    let writes = disk.write_at(0, b"abc").is_ok();
    (writes, disk.sync().is_ok())
}

/// These calls succeeded, and the disk with so much room holds these bytes.
fn is_left(
    rt: &impl Abort,
    room: usize,
    failing: &[u64],
    found: (bool, bool, &[u8]),
    want: (bool, bool, &[u8]),
) {
    assert_eq!(rt; found, want, "room {room}, {failing:?}");
}

/// A disk's room, the calls that fail; whether a write succeeds, and a sync; what is held then.
const CALLS: &[(usize, &[u64], bool, bool, &[u8])] = &[
    (35, &[], true, true, b"abc"),
    (34, &[], true, false, b"abc"),
    (18, &[], false, true, b""),
    (35, &[1], false, true, b"ab"),
    (35, &[2], true, false, b"abc"),
];

#[test]
fn a_call_fails_where_told_or_without_room(rt: HostRuntime) -> Result<(), Fail> {
    for (room, failing, writes, syncs, held) in CALLS {
        let mut disk = MemoryDisk::make(rt.alloc(), b"", *room, failing)?;
        let (wrote, synced) = stores(&mut disk);
        let found = (wrote, synced, disk.bytes());
        is_left(&rt, *room, failing, found, (*writes, *syncs, held));
    }
    Ok(())
}
