//! What a standby answers to a stream, in pieces of several lengths, and what its log then is.

use crate::standby_rig::{SHIPPED, accounts_log, follow, transfer_log};
use lock_core::Why;
use lsn_space::Lsn;
use memory_disk::MemoryDisk;
use standby::{Fed, StandbyFault};
use std::alloc::Global;
use std::process::Abort;
use std::test::Fail;

fn bad(offset: u64) -> Result<(Fed, Lsn), StandbyFault> {
    Err(StandbyFault::BadStream { offset })
}

fn unlawful(lsn: u32, why: Why) -> Result<(Fed, Lsn), StandbyFault> {
    let lsn = Lsn::new(lsn);
    Err(StandbyFault::StreamUnlawful { lsn, why })
}

fn gap(have: u32, from: u32) -> Result<(Fed, Lsn), StandbyFault> {
    Err(StandbyFault::Gap {
        have: Lsn::new(have),
        from: Lsn::new(from),
    })
}

fn ends(lsn: u32) -> Result<(Fed, Lsn), StandbyFault> {
    Ok((Fed::Ended, Lsn::new(lsn)))
}

/// To this stream a log with these bytes gives this answer, and these bytes are left, in pieces of 1, of 7, and whole.
fn follows(
    rt: &impl Abort,
    alloc: Global,
    log: &[u8],
    stream: &[u8],
    want: &Result<(Fed, Lsn), StandbyFault>,
    left: &[u8],
) -> Result<(), Fail> {
    follows_in(rt, alloc, log, stream, 1, want, left)?;
    follows_in(rt, alloc, log, stream, 7, want, left)?;
    follows_in(rt, alloc, log, stream, 1000, want, left)
}

/// The same in pieces of so many bytes.
fn follows_in(
    rt: &impl Abort,
    alloc: Global,
    log: &[u8],
    stream: &[u8],
    piece: usize,
    want: &Result<(Fed, Lsn), StandbyFault>,
    left: &[u8],
) -> Result<(), Fail> {
    let mut disk = MemoryDisk::make(alloc, log, 1000, &[])?;
    let got = follow(alloc, &mut disk, stream, piece);
    assert_eq!(rt; got, Some(*want), "pieces of {piece}");
    assert_eq!(rt; disk.bytes(), left, "pieces of {piece}");
    Ok(())
}

/// The shipped transfer with a byte more.
fn longer(alloc: Global) -> Result<Vec<u8>, Fail> {
    let mut bytes = Vec::from_slice(alloc, &SHIPPED)?;
    bytes.push(0)?;
    Ok(bytes)
}

/// The shipped transfer with other bytes for the account of its first record, and for the legs and the kind of its last.
fn changed(alloc: Global, account: u8, legs: u8, kind: u8) -> Result<Vec<u8>, Fail> {
    let mut bytes = Vec::from_slice(alloc, &SHIPPED[..18])?;
    bytes.push(account)?;
    bytes.extend_from_slice(&SHIPPED[19..47])?;
    bytes.push(kind)?;
    bytes.extend_from_slice(&SHIPPED[48..50])?;
    bytes.push(legs)?;
    bytes.extend_from_slice(&SHIPPED[51..])?;
    Ok(bytes)
}

/// The head from an LSN, and a count.
fn headed(alloc: Global, first: u8, count: [u8; 4]) -> Result<Vec<u8>, Fail> {
    let mut bytes = Vec::from_slice(alloc, b"AESHIP1\0\0\0")?;
    bytes.push(first)?;
    bytes.extend_from_slice(&count)?;
    Ok(bytes)
}

#[test]
fn whole_frames_are_applied(rt: HostRuntime) -> Result<(), Fail> {
    let alloc = rt.alloc();
    let old = accounts_log(alloc)?;
    let new = transfer_log(alloc)?;
    let more = longer(alloc)?;
    follows(
        &rt,
        alloc,
        old.as_slice(),
        &SHIPPED,
        &ends(9),
        new.as_slice(),
    )?;
    follows(
        &rt,
        alloc,
        old.as_slice(),
        &SHIPPED[..30],
        &bad(11),
        old.as_slice(),
    )?;
    follows(
        &rt,
        alloc,
        old.as_slice(),
        &SHIPPED[..55],
        &bad(55),
        new.as_slice(),
    )?;
    follows(
        &rt,
        alloc,
        old.as_slice(),
        more.as_slice(),
        &bad(59),
        new.as_slice(),
    )?;
    follows(
        &rt,
        alloc,
        old.as_slice(),
        &SHIPPED[..10],
        &bad(0),
        old.as_slice(),
    )?;
    follows(&rt, alloc, old.as_slice(), &[], &bad(0), old.as_slice())
}

#[test]
fn refused_frames_are_not(rt: HostRuntime) -> Result<(), Fail> {
    let alloc = rt.alloc();
    let old = accounts_log(alloc)?;
    let account = changed(alloc, 7, 1, 3)?;
    let legs = changed(alloc, 0, 2, 3)?;
    let kind = changed(alloc, 0, 1, 9)?;
    let both = changed(alloc, 7, 1, 9)?;
    let long = headed(alloc, 4, [0, 1, 0, 1])?;
    let none = headed(alloc, 4, [0; 4])?;
    follows(
        &rt,
        alloc,
        old.as_slice(),
        legs.as_slice(),
        &unlawful(8, Why::Legs),
        old.as_slice(),
    )?;
    follows(
        &rt,
        alloc,
        old.as_slice(),
        account.as_slice(),
        &unlawful(4, Why::Account),
        old.as_slice(),
    )?;
    follows(
        &rt,
        alloc,
        old.as_slice(),
        kind.as_slice(),
        &bad(11),
        old.as_slice(),
    )?;
    follows(
        &rt,
        alloc,
        old.as_slice(),
        both.as_slice(),
        &bad(11),
        old.as_slice(),
    )?;
    follows(
        &rt,
        alloc,
        old.as_slice(),
        long.as_slice(),
        &bad(11),
        old.as_slice(),
    )?;
    follows(
        &rt,
        alloc,
        old.as_slice(),
        none.as_slice(),
        &ends(4),
        old.as_slice(),
    )
}

#[test]
fn a_stream_goes_on_where_the_log_ends(rt: HostRuntime) -> Result<(), Fail> {
    let alloc = rt.alloc();
    let old = accounts_log(alloc)?;
    let new = transfer_log(alloc)?;
    let none = headed(alloc, 9, [0; 4])?;
    follows(
        &rt,
        alloc,
        new.as_slice(),
        &SHIPPED,
        &gap(9, 4),
        new.as_slice(),
    )?;
    follows(
        &rt,
        alloc,
        old.as_slice(),
        none.as_slice(),
        &gap(4, 9),
        old.as_slice(),
    )?;
    follows(
        &rt,
        alloc,
        new.as_slice(),
        none.as_slice(),
        &ends(9),
        new.as_slice(),
    )
}
