//! Vectors of the file format. Each file begins with the genesis log's first 44 bytes.

use segment_file::{ScanFault, Tail, scan};
use std::alloc::{AllocError, AllocGlobal, Global};
use std::process::Abort;
use std::test::Fail;

/// An open gate, the magic bytes, and a batch of four units: two accounts of balances 100 and 0.
pub const GENESIS: [u8; 44] = [
    0x4f, 0x41, 0x45, 0x54, 0x48, 0x45, 0x52, 0x31, 0, 0, 0, 4, //
    1, 2, 0, 0, 0, 0, 0, 0, 0, 0, 0, 0, 0, 0, 0, 0x64, //
    1, 2, 0, 1, 0, 0, 0, 0, 0, 0, 0, 0, 0, 0, 0, 0,
];

/// Two accounts of balances 100 and 0.
pub const ACCOUNTS: [u64; 4] = [0x0102_0000_0000_0000, 100, 0x0102_0001_0000_0000, 0];

/// The genesis log's bytes, and some behind them.
pub fn genesis_and(alloc: Global, rest: &[u8]) -> Result<Vec<u8>, AllocError> {
    let mut bytes = Vec::from_slice(alloc, &GENESIS)?;
    bytes.extend_from_slice(rest)?;
    Ok(bytes)
}

/// The units are those of the accounts.
fn are_accounts(rt: &impl Abort, rest: &[u8], units: &[u64]) {
    assert_eq!(rt; units, ACCOUNTS.as_slice(), "{rest:?}");
}

/// The tail of a log with these bytes behind it has this place, and this LSN is next.
pub fn is_tail(rt: &impl Abort, rest: &[u8], tail: &Tail, want: (u64, u32)) {
    assert_eq!(rt; (tail.at, tail.next.units()), want, "{rest:?}");
}

/// With these bytes behind it, the log ends with the accounts.
fn ends_with_accounts<R: AllocGlobal + Abort>(rt: &R, rest: &[u8]) -> Result<(), Fail> {
    let bytes = genesis_and(rt.alloc(), rest)?;
    let Ok(found) = scan(rt.alloc(), bytes.as_slice()) else {
        return Err(Fail::new("no log"));
    };
    is_tail(rt, rest, &found.tail, (44, 4));
    are_accounts(rt, rest, found.units.as_slice());
    Ok(())
}

const CLOSED: &[&[u8]] = &[&[], &[0], &[0xff, 0xff], &[0x4f], &[0, 0x4f, 0, 0, 0, 1]];

#[test]
fn finds_the_first_closed_gate(rt: HostRuntime) -> Result<(), Fail> {
    for rest in CLOSED {
        ends_with_accounts(&rt, rest)?;
    }
    Ok(())
}

/// The scan of these bytes has this fault.
pub fn has_fault<R: AllocGlobal + Abort>(rt: &R, bytes: &[u8], fault: ScanFault) {
    assert_eq!(rt; scan(rt.alloc(), bytes).err(), Some(fault), "{bytes:?}");
}

/// With these bytes behind it, the log has a bad batch here.
fn has_bad_batch<R: AllocGlobal + Abort>(rt: &R, rest: &[u8], offset: u64) -> Result<(), Fail> {
    let bytes = genesis_and(rt.alloc(), rest)?;
    has_fault(rt, bytes.as_slice(), ScanFault::BadBatch { offset });
    Ok(())
}

const BAD_BATCHES: &[(&[u8], u64)] = &[
    (&[0x4f, 0], 44),
    (&[0x4f, 0, 0, 0, 0, 0], 44),
    (&[0x4f, 0, 0x10, 0, 1, 0], 44),
    (&[0x4f, 0, 0, 0, 1, 0, 0, 0, 0, 0, 0, 0, 5, 0x4f, 0], 57),
];

#[test]
fn names_the_first_bad_batch(rt: HostRuntime) -> Result<(), Fail> {
    for (rest, offset) in BAD_BATCHES {
        has_bad_batch(&rt, rest, *offset)?;
    }
    let (cut, _) = GENESIS.split_at(30);
    has_fault(&rt, cut, ScanFault::BadBatch { offset: 0 });
    Ok(())
}

const NO_LOGS: &[&[u8]] = &[b"", b"O", b"OAETHER3\0\0\0\x01", b"\0AETHER1\0\0\0\x01"];

#[test]
fn refuses_what_does_not_begin_as_a_log(rt: HostRuntime) {
    for bytes in NO_LOGS {
        has_fault(&rt, bytes, ScanFault::NotALog);
    }
}
