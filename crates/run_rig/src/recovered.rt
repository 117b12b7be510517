//! What is recovered from a disk.
use log_disk::LogDisk;
use log_recovery::recover;
use lsn_space::Lsn;
use segment_file::open_image;
use std::alloc::Global;

/// The end of the log.
pub fn recovered_end<D: LogDisk>(alloc: Global, disk: &mut D) -> Option<Lsn> {
    let bytes = open_image(alloc, disk).ok()?;
    let found = recover(alloc, bytes.as_slice()).ok()?;
    Some(found.lsn)
}

/// The balances of the two accounts.
pub fn recovered_balances<D: LogDisk>(alloc: Global, disk: &mut D) -> Option<(u64, u64)> {
    let bytes = open_image(alloc, disk).ok()?;
    let found = recover(alloc, bytes.as_slice()).ok()?;
    if found.accounts.count() != 2 {
        return None;
    }
    Some((found.accounts.at(0).0, found.accounts.at(1).0))
}
