//! Logs on a disk in memory: the bytes that a call writes, and what is read after a crash at each device call.

ghost use Rattle.std.specs.Prelude.{◌≡◌, ◌≤◌, ◌+◌, ◌*◌, ◌^◌, length, IfSome};
ghost use Rattle.segment_file.specs.StandingLog.{IsShut};

use crate::scanning::{ACCOUNTS, genesis_and, is_tail};
use log_disk::LogDisk;
use memory_disk::MemoryDisk;
use segment_file::{Batch, Tail, append, create, open_image, scan, settle};
use std::alloc::Global;
use std::process::Abort;
use std::test::Fail;

/// The number of a device call that is never made.
const NONE: u64 = 99;

/// The accounts, and then a transfer of 30 from the first to the second.
const ALL: [u64; 9] = [
    0x0102_0000_0000_0000,
    100,
    0x0102_0001_0000_0000,
    0,
    0x0202_0000_0000_0001,
    0xffff_ffe2_0000_0000,
    0x0202_0001_0000_0001,
    0x0000_001e_0000_0000,
    0x0301_0001_0000_0001,
];

/// The bytes behind the accounts, from their next gate on, once the transfer is appended.
const APPENDED: [u8; 46] = [
    0x4f, 0, 0, 0, 5, //
    2, 2, 0, 0, 0, 0, 0, 1, 0xff, 0xff, 0xff, 0xe2, 0, 0, 0, 0, //
    2, 2, 0, 1, 0, 0, 0, 1, 0, 0, 0, 0x1e, 0, 0, 0, 0, //
    3, 1, 0, 1, 0, 0, 0, 1, 0,
];

fn accounts(alloc: Global) -> Option<Batch>
    ensures { IfSome result (λ batch. length batch.units ≡ 4) }
{
    let Ok(mut batch) = Batch::make(alloc, 4) else {
        return None;
    };
    batch.push(ACCOUNTS[0]);
    batch.push(ACCOUNTS[1]);
    batch.push(ACCOUNTS[2]);
    batch.push(ACCOUNTS[3]);
    Some(batch)
}

fn transfer(alloc: Global) -> Option<Batch>
    ensures { IfSome result (λ batch. length batch.units ≡ 5) }
{
    let Ok(mut batch) = Batch::make(alloc, 5) else {
        return None;
    };
    batch.push(ALL[4]);
    batch.push(ALL[5]);
    batch.push(ALL[6]);
    batch.push(ALL[7]);
    batch.push(ALL[8]);
    Some(batch)
}

/// Opens a log, and settles its tail.
fn reopen<D: LogDisk>(alloc: Global, disk: &mut D) -> Option<Tail>
    ensures place { IfSome result (λ tail. tail.at ≤ 2 ^ 63 + 16 * tail.next) }
    ensures shut { D.honest disk.new → IfSome result (λ tail. IsShut tail.at (D.images disk.new)) }
{
    let Ok(bytes) = open_image(alloc, disk) else {
        return None;
    };
    let Ok(found) = scan(alloc, bytes.as_slice()) else {
        return None;
    };
    let at = found.tail.at;
    let next = found.tail.next;
    match settle(disk, at, next) {
        Ok(tail) => Some(tail),
        Err(_) => None,
    }
}

/// Opens a log, and appends the transfer.
fn append_transfer<D: LogDisk>(alloc: Global, disk: &mut D) -> Option<Tail> {
    let mut batch = transfer(alloc)?;
    let tail = reopen(alloc, disk)?;
    let next = tail.next;
    next.plus(batch.count())?;
    match append(disk, tail, &mut batch) {
        Ok(tail) => Some(tail),
        Err(_) => None,
    }
}

/// The units that are read after a crash, or none where no log is.
fn units_after_crash(alloc: Global, disk: MemoryDisk, pick: u64) -> Result<Vec<u64>, Fail> {
    let mut disk = disk.crash(pick);
    let bytes = open_image(alloc, &mut disk)?;
    match scan(alloc, bytes.as_slice()) {
        Ok(found) => Ok(found.units.into_vec()),
        Err(_) => Ok(Vec::new(alloc)),
    }
}

/// These are the bytes of the genesis log, and some behind them.
fn is_held(rt: &impl Abort, alloc: Global, bytes: &[u8], rest: &[u8]) -> Result<(), Fail> {
    assert_eq!(rt; bytes, genesis_and(alloc, rest)?.as_slice());
    Ok(())
}

#[test]
fn appends_a_transfer(rt: HostRuntime) -> Result<(), Fail> {
    let alloc = rt.alloc();
    let mut disk = MemoryDisk::make(alloc, genesis_and(alloc, &[0])?.as_slice(), 142, &[])?;
    let Some(tail) = append_transfer(alloc, &mut disk) else {
        return Err(Fail::new("not appended"));
    };
    is_tail(&rt, &[0], &tail, (89, 9));
    is_held(
        &rt,
        alloc,
        open_image(alloc, &mut disk)?.as_slice(),
        &APPENDED,
    )
}

/// These are the units that were read.
fn is_read(rt: &impl Abort, units: &[u64], want: &[u64], call: u64, pick: u64) {
    assert_eq!(rt; units, want, "call {call}, pick {pick}");
}

/// Appends the transfer, unless a device call fails. Says whether the whole new list is read after a crash; else it's the list
/// before.
fn appends(rt: &impl Abort, alloc: Global, call: u64, pick: u64) -> Result<bool, Fail> {
    let bytes = genesis_and(alloc, &[0])?;
    let mut disk = MemoryDisk::make(alloc, bytes.as_slice(), 1000, &[call])?;
    let appended = append_transfer(alloc, &mut disk).is_some();
    assert!(rt; appended == (call > 8), "call {call}");
    let units = units_after_crash(alloc, disk, pick)?;
    if !appended && units.as_slice() == ACCOUNTS.as_slice() {
        return Ok(false);
    }
    is_read(rt, units.as_slice(), ALL.as_slice(), call, pick);
    Ok(true)
}

/// What is read after a crash at any device call is the list before, or the whole new one; after Ok the latter.
#[test]
fn appends_all_or_nothing(rt: HostRuntime) -> Result<(), Fail> {
    let (mut before, mut after) = (false, false);
    for call in [1, 2, 3, 4, 5, 6, 7, 8, NONE] {
        for pick in 0..400 {
            let is_new = appends(&rt, rt.alloc(), call, pick)?;
            before = before || !is_new;
            after = after || is_new;
        }
    }
    assert!(rt; before && after);
    Ok(())
}

/// Creates the log of the accounts, unless a device call fails. Says whether it is read after a crash; else there is none.
fn creates(rt: &impl Abort, alloc: Global, call: u64, pick: u64) -> Result<bool, Fail> {
    let mut disk = MemoryDisk::make(alloc, &[], 1000, &[call])?;
    let Some(mut batch) = accounts(alloc) else {
        return Err(Fail::new("no memory"));
    };
    let created = create(&mut disk, &mut batch).is_ok();
    assert!(rt; created == (call > 7), "call {call}");
    let units = units_after_crash(alloc, disk, pick)?;
    if !created && units.is_empty() {
        return Ok(false);
    }
    is_read(rt, units.as_slice(), ACCOUNTS.as_slice(), call, pick);
    Ok(true)
}

#[test]
fn creates_all_or_nothing(rt: HostRuntime) -> Result<(), Fail> {
    let (mut before, mut after) = (false, false);
    for call in [1, 2, 3, 4, 5, 6, 7, NONE] {
        for pick in 0..400 {
            let is_new = creates(&rt, rt.alloc(), call, pick)?;
            before = before || !is_new;
            after = after || is_new;
        }
    }
    assert!(rt; before && after);
    Ok(())
}

/// A log with these bytes behind its accounts is reopened, unless a device call fails; what is read after a crash is its accounts.
fn settles(
    rt: &impl Abort,
    alloc: Global,
    rest: &[u8],
    settled: &[u8],
    failing: u64,
    pick: u64,
) -> Result<(), Fail> {
    let bytes = genesis_and(alloc, rest)?;
    let mut disk = MemoryDisk::make(alloc, bytes.as_slice(), 1000, &[failing])?;
    let opened = reopen(alloc, &mut disk).is_some();
    assert!(rt; opened == (failing == NONE), "{rest:?}, call {failing}");
    if opened {
        is_held(rt, alloc, disk.bytes(), settled)?;
    }
    let units = units_after_crash(alloc, disk, pick)?;
    is_read(rt, units.as_slice(), ACCOUNTS.as_slice(), failing, pick);
    Ok(())
}

/// The same for each of many crashes.
fn settles_at_each(
    rt: &impl Abort,
    alloc: Global,
    rest: &[u8],
    settled: &[u8],
    failing: u64,
) -> Result<(), Fail> {
    for pick in 0..400 {
        settles(rt, alloc, rest, settled, failing, pick)?;
    }
    Ok(())
}

/// The bytes behind the accounts, those that are left, and how many device calls are made.
const GATES: &[(&[u8], &[u8], u64)] = &[
    (&[], &[0], 6),
    (&[0x4f], &[0], 6),
    (&[0xff], &[0xff], 4),
    (&[0, 0x4f], &[0, 0x4f], 4),
];

#[test]
fn settles_a_gate_that_lacks(rt: HostRuntime) -> Result<(), Fail> {
    for (rest, settled, calls) in GATES {
        for call in 1..=*calls {
            settles_at_each(&rt, rt.alloc(), rest, settled, call)?;
        }
        settles_at_each(&rt, rt.alloc(), rest, settled, NONE)?;
    }
    Ok(())
}
