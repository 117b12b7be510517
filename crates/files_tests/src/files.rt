//! A disk over the system's files.

use crate::outcomes::{has_ended, has_given, is_number};
use log_disk::{Failed, LogDisk};
use lsn_space::Word;
use std::fs;
use std::process::Abort;
use std::test::Fail;
use system_disk::{FileDisk, folder_of};

type Disk = FileDisk<HostRuntime>;

/// Files are attached so, made where they lack and `make` says so.
fn attaches(rt: &impl Abort, disk: &mut Disk, name: &Word, make: bool, want: Result<(), Failed>) {
    has_ended(rt, "attach", disk.attach(name, make), want);
}

/// A write ends so.
fn writes(rt: &impl Abort, disk: &mut Disk, at: u64, bytes: &[u8], want: Result<(), Failed>) {
    has_ended(rt, "write", disk.write_at(at, bytes), want);
}

/// A sync ends so.
fn syncs(rt: &impl Abort, disk: &mut Disk, want: Result<(), Failed>) {
    has_ended(rt, "sync", disk.sync(), want);
}

/// So many calls of the disk failed until then.
fn counts(rt: &impl Abort, disk: &Disk, when: &str, faults: u64) {
    is_number(rt, when, disk.faults(), faults);
}

/// The disk has this length, or that is a fault.
fn has_length(rt: &impl Abort, disk: &mut Disk, want: Option<u64>) {
    assert_eq!(rt; disk.len().ok(), want);
}

/// A read of four bytes from here on gives these.
fn reads(rt: &impl Abort, disk: &mut Disk, at: u64, want: &[u8]) {
    let mut buf = [0; 4];
    let found = match disk.read_at(at, &mut buf) {
        Ok(count) => Some(&buf[..count]),
        Err(Failed) => None,
    };
    has_given(rt, at, found, Some(want));
}

/// No file is made, and each call is a fault.
fn refuses_without_a_file(rt: &impl Abort, disk: &mut Disk, name: &Word) {
    has_length(rt, disk, None);
    attaches(rt, disk, name, false, Err(Failed));
    counts(rt, disk, "without a file", 2);
}

/// Two writes, of which the second goes on over the end of the first.
fn writes_twice(rt: &impl Abort, disk: &mut Disk, name: &Word) {
    attaches(rt, disk, name, true, Ok(()));
    writes(rt, disk, 0, b"abc", Ok(()));
    writes(rt, disk, 2, b"XYZ", Ok(()));
    syncs(rt, disk, Ok(()));
}

/// Another disk has the file, so this one doesn't get it.
fn is_kept_out(rt: &impl Abort, again: &mut Disk, name: &Word) {
    attaches(rt, again, name, false, Err(Failed));
    attaches(rt, again, name, true, Err(Failed));
    has_length(rt, again, None);
    counts(rt, again, "of the disk that is kept out", 3);
}

/// What was written is read by another disk, once the first one is gone.
fn reads_back(rt: &impl Abort, again: &mut Disk, name: &Word) {
    attaches(rt, again, name, true, Ok(()));
    has_length(rt, again, Some(5));
    reads(rt, again, 1, b"bXYZ");
    reads(rt, again, 5, b"");
    counts(rt, again, "of the other disk", 3);
}

#[test]
fn keeps_a_real_file(rt: HostRuntime) -> Result<(), Fail> {
    let Ok(name) = Word::make(rt.alloc(), "file_disk_test.log") else {
        return Err(Fail::new("no memory"));
    };
    let _ = fs::remove_file(&rt, name.text());
    let mut disk = FileDisk::make(rt);
    refuses_without_a_file(&rt, &mut disk, &name);
    writes_twice(&rt, &mut disk, &name);
    let mut again = FileDisk::make(rt);
    is_kept_out(&rt, &mut again, &name);
    counts(&rt, &disk, "of the first disk", 2);
    drop(disk);
    reads_back(&rt, &mut again, &name);
    assert!(rt; fs::remove_file(&rt, name.text()).is_ok());
    Ok(())
}

/// A place of which the lowest 32 bits are 5.
const FAR: u64 = (1 << 32) + 5;

/// A write of 32 bytes here would go past the greatest place that a file may have.
const LAST_PLACES: u64 = (1 << 63) - 16;

/// Bytes that lie past 32 bits stand there, and not at the front, where a place that lost its upper bits would put them.
fn writes_far(rt: &impl Abort, disk: &mut Disk) {
    writes(rt, disk, 0, b"front", Ok(()));
    writes(rt, disk, FAR, b"far!", Ok(()));
    has_length(rt, disk, Some(FAR + 4));
    reads(rt, disk, FAR, b"far!");
    reads(rt, disk, FAR + 4, b"");
    reads(rt, disk, 5, b"\0\0\0\0");
}

#[test]
fn reaches_places_past_32_bits(rt: HostRuntime) -> Result<(), Fail> {
    let Ok(name) = Word::make(rt.alloc(), "file_disk_far_test.log") else {
        return Err(Fail::new("no memory"));
    };
    let _ = fs::remove_file(&rt, name.text());
    let mut disk = FileDisk::make(rt);
    attaches(&rt, &mut disk, &name, true, Ok(()));
    writes_far(&rt, &mut disk);
    writes(&rt, &mut disk, LAST_PLACES, &[b'x'; 32], Err(Failed));
    counts(&rt, &disk, "past the last place", 1);
    has_length(&rt, &mut disk, Some(FAR + 4));
    reads(&rt, &mut disk, 0, b"fron");
    assert!(rt; fs::remove_file(&rt, name.text()).is_ok());
    Ok(())
}

// No write fits on the device, and it can't be synced.
#[test]
fn counts_what_the_system_refuses(rt: HostRuntime) -> Result<(), Fail> {
    let Ok(name) = Word::make(rt.alloc(), "/dev/full") else {
        return Err(Fail::new("no memory"));
    };
    let mut disk = FileDisk::make(rt);
    attaches(&rt, &mut disk, &name, false, Ok(()));
    writes(&rt, &mut disk, 0, b"abc", Err(Failed));
    counts(&rt, &disk, "after the write", 1);
    syncs(&rt, &mut disk, Err(Failed));
    counts(&rt, &disk, "after the sync", 2);
    Ok(())
}

/// The folder of the file of this name.
fn is_in(rt: &impl Abort, name: &str, folder: &str) {
    assert_eq!(rt; folder_of(name), folder, "{name}");
}

const FOLDERS: &[(&str, &str)] = &[
    ("x.log", "."),
    ("a/x.log", "a"),
    ("a/b/x.log", "a/b"),
    ("/x.log", "/"),
    ("/a/x.log", "/a"),
];

#[test]
fn knows_the_folder_of_a_file(rt: HostRuntime) {
    for (name, folder) in FOLDERS {
        is_in(&rt, name, folder);
    }
}
