//! Files of the second format: what is read of their heads, and heads that are written.

ghost use Rattle.std.specs.Prelude.{◌≡◌, IfSome};

use crate::scanning::{has_fault, is_tail};
use log_disk::LogDisk;
use lsn_space::{Balances, Lsn, Opening};
use memory_disk::MemoryDisk;
use segment_cut::create_cut;
use segment_file::{Scan, ScanFault, open_image, scan};
use segment_head::Head;
use std::alloc::{AllocError, AllocGlobal, Global};
use std::process::Abort;
use std::test::Fail;

/// The number of a device call that is never made.
pub const NONE: u64 = 99;

/// The log of one transfer, cut: its list begins at 9 behind transaction 1, with 70 and 30, each last changed at 9; then a
/// closed gate.
pub const CUT: [u8; 45] = [
    0x4f, 0x41, 0x45, 0x54, 0x48, 0x45, 0x52, 0x32, //
    0, 0, 0, 9, 0, 0, 0, 1, 0, 0, 0, 2, //
    0, 0, 0, 0, 0, 0, 0, 0x46, 0, 0, 0, 9, //
    0, 0, 0, 0, 0, 0, 0, 0x1e, 0, 0, 0, 9, //
    0,
];

/// The same with these bytes from a place on, in place of what stood there.
fn cut_with(alloc: Global, place: usize, bytes: &[u8]) -> Result<Vec<u8>, AllocError> {
    let mut file = Vec::from_slice(alloc, CUT.as_slice().split_at(place.min(45)).0)?;
    file.extend_from_slice(bytes)?;
    let rest = file.len().min(45);
    file.extend_from_slice(CUT.as_slice().split_at(rest).1)?;
    Ok(file)
}

/// What stands before the list, in the order of the file.
pub fn is_opening(rt: &impl Abort, opening: &Opening, want: (u32, u32, u32)) {
    let found = (opening.lsn.units(), opening.txn, opening.accounts.count());
    assert_eq!(rt; found, want);
}

/// The two accounts of the file that was cut.
fn has_two_accounts(rt: &impl Abort, accounts: &Balances) {
    if accounts.count() == 2 {
        assert_eq!(rt; (accounts.at(0), accounts.at(1)), ((70, 9), (30, 9)));
    }
}

/// It is read whole, and has no records.
fn is_whole(rt: &impl Abort, found: &Scan) {
    is_opening(rt, &found.opening, (9, 1, 2));
    has_two_accounts(rt, &found.opening.accounts);
    is_tail(rt, &[], &found.tail, (44, 9));
    assert!(rt; found.units.as_slice().is_empty());
}

/// The scan of the first bytes of the file.
fn reads_front<R: AllocGlobal + Abort>(rt: &R, len: usize) -> Result<(), Fail> {
    let (front, _) = CUT.as_slice().split_at(len.min(45));
    if len < 8 {
        has_fault(rt, front, ScanFault::NotALog);
    } else if len < 44 {
        has_fault(rt, front, ScanFault::BadSnapshot);
    } else {
        let Ok(found) = scan(rt.alloc(), front) else {
            return Err(Fail::new("no log"));
        };
        is_whole(rt, &found);
    }
    Ok(())
}

#[test]
fn reads_a_head_cut_at_each_place(rt: HostRuntime) -> Result<(), Fail> {
    for len in 0..=45 {
        reads_front(&rt, len)?;
    }
    Ok(())
}

/// What stands at a place, and the fault of the file. A mark may be the LSN where the list begins and no later one; a balance
/// may be 4611686018427387903 and no greater; there is an account. With the last LSN before it, a file has room for no unit.
const CHANGED: &[(usize, &[u8], Option<ScanFault>)] = &[
    (28, &[0, 0, 0, 10], Some(ScanFault::BadSnapshot)),
    (28, &[0, 0, 0, 0], None),
    (8, &[0, 0, 0, 8], Some(ScanFault::BadSnapshot)),
    (16, &[0, 0, 0, 0], Some(ScanFault::BadSnapshot)),
    (
        20,
        &[0x40, 0, 0, 0, 0, 0, 0, 0],
        Some(ScanFault::BadSnapshot),
    ),
    (
        20,
        &[0x80, 0, 0, 0, 0, 0, 0, 0],
        Some(ScanFault::BadSnapshot),
    ),
    (20, &[0x3f, 0xff, 0xff, 0xff, 0xff, 0xff, 0xff, 0xff], None),
    (44, &[0x4f, 0], Some(ScanFault::BadBatch { offset: 44 })),
    (
        44,
        &[0x4f, 0, 0, 0, 0, 0],
        Some(ScanFault::BadBatch { offset: 44 }),
    ),
];

#[test]
fn tests_each_number_of_a_head(rt: HostRuntime) -> Result<(), Fail> {
    for (place, bytes, fault) in CHANGED {
        let file = cut_with(rt.alloc(), *place, bytes)?;
        assert_eq!(&rt;
            scan(rt.alloc(), file.as_slice()).err(),
            *fault,
            "{place}: {bytes:?}"
        );
    }
    Ok(())
}

/// Balances of eight bytes in a row of a head, and the fault of the file.
const BALANCES: &[([u8; 8], Option<ScanFault>)] = &[
    ([0x3f, 255, 255, 255, 255, 255, 255, 255], None),
    ([0x40, 0, 0, 0, 0, 0, 0, 0], Some(ScanFault::BadSnapshot)),
    ([0x80, 0, 0, 0, 0, 0, 0, 0], Some(ScanFault::BadSnapshot)),
    ([255; 8], Some(ScanFault::BadSnapshot)),
];

/// Where the balances of both rows stand.
const ROWS: [usize; 2] = [20, 32];

#[test]
fn a_row_has_up_to_the_greatest_balance(rt: HostRuntime) -> Result<(), Fail> {
    for place in ROWS {
        for (bytes, fault) in BALANCES {
            let file = cut_with(rt.alloc(), place, bytes)?;
            let found = scan(rt.alloc(), file.as_slice()).err();
            assert!(rt; found == *fault, "{place}: {bytes:?}");
        }
    }
    Ok(())
}

/// A batch of one unit, and a closed gate.
pub const UNIT: [u8; 14] = [0x4f, 0, 0, 0, 1, 4, 1, 0, 1, 0, 0, 0, 2, 0];

/// The file with this LSN where its list begins, and a batch of one unit behind its head.
fn begun_at(alloc: Global, last: u8) -> Result<Vec<u8>, AllocError> {
    let mut file = Vec::from_slice(alloc, CUT.as_slice().split_at(8).0)?;
    file.extend_from_slice(&[0xff, 0xff, 0xff, last])?;
    file.extend_from_slice(CUT.as_slice().split_at(44).0.split_at(12).1)?;
    file.extend_from_slice(&UNIT)?;
    Ok(file)
}

#[test]
fn counts_from_where_the_list_begins(rt: HostRuntime) -> Result<(), Fail> {
    let past = begun_at(rt.alloc(), 0xff)?;
    has_fault(&rt, past.as_slice(), ScanFault::BadBatch { offset: 44 });
    let Ok(found) = scan(rt.alloc(), begun_at(rt.alloc(), 0xfe)?.as_slice()) else {
        return Err(Fail::new("no log"));
    };
    is_tail(&rt, &[], &found.tail, (57, u32::MAX));
    Ok(())
}

/// A file with so many accounts, all with nothing, and a closed gate.
fn with_accounts(alloc: Global, count: u32) -> Result<Vec<u8>, AllocError> {
    let mut file = Vec::from_slice(alloc, CUT.as_slice().split_at(16).0)?;
    file.extend_from_slice(&count.to_be_bytes())?;
    for _ in 0..count {
        file.extend_from_slice(&[0; 12])?;
    }
    file.push(0)?;
    Ok(file)
}

#[test]
fn has_1_to_4096_accounts(rt: HostRuntime) -> Result<(), Fail> {
    let most = with_accounts(rt.alloc(), 4096)?;
    let Ok(found) = scan(rt.alloc(), most.as_slice()) else {
        return Err(Fail::new("no log"));
    };
    is_opening(&rt, &found.opening, (9, 1, 4096));
    has_fault(
        &rt,
        with_accounts(rt.alloc(), 4097)?.as_slice(),
        ScanFault::BadSnapshot,
    );
    has_fault(
        &rt,
        with_accounts(rt.alloc(), 0)?.as_slice(),
        ScanFault::BadSnapshot,
    );
    Ok(())
}

/// The head of the file.
pub fn head(alloc: Global) -> Option<Head>
    ensures { IfSome result (λ head. head.lsn ≡ 9) }
{
    let Ok(mut accounts) = Balances::make(alloc, 2) else {
        return None;
    };
    accounts.push(70, 9);
    accounts.push(30, 9);
    let opening = Opening {
        lsn: Lsn::new(9),
        txn: 1,
        accounts,
    };
    Head::make(alloc, &opening).ok()
}

/// Makes the file, unless a device call fails. Says whether it is read after a crash; else there is no log.
fn creates(rt: &impl Abort, alloc: Global, call: u64, pick: u64) -> Result<bool, Fail> {
    let mut disk = MemoryDisk::make(alloc, &[], 1000, &[call])?;
    let Some(mut head) = head(alloc) else {
        return Err(Fail::new("no memory"));
    };
    let created = create_cut(&mut disk, &mut head).is_ok();
    assert!(rt; created == (call > 7), "call {call}");
    let mut crashed = disk.crash(pick);
    let bytes = open_image(alloc, &mut crashed)?;
    match scan(alloc, bytes.as_slice()) {
        Ok(found) => is_whole(rt, &found),
        Err(fault) => {
            assert!(rt;
                !created && fault == ScanFault::NotALog,
                "call {call}, pick {pick}"
            );
            return Ok(false);
        }
    }
    Ok(true)
}

/// What is read after a crash at any device call is no log, or the head and nothing else; after Ok the latter.
#[test]
fn creates_all_or_nothing(rt: HostRuntime) -> Result<(), Fail> {
    let (mut before, mut after) = (false, false);
    for call in [1, 2, 3, 4, 5, 6, 7, NONE] {
        for pick in 0..400 {
            let is_new = creates(&rt, rt.alloc(), call, pick)?;
            before = before || !is_new;
            after = after || is_new;
        }
    }
    assert!(rt; before && after);
    Ok(())
}

#[test]
fn writes_the_head_byte_by_byte(rt: HostRuntime) -> Result<(), Fail> {
    let mut disk = MemoryDisk::make(rt.alloc(), &[], 1000, &[])?;
    let Some(mut head) = head(rt.alloc()) else {
        return Err(Fail::new("no memory"));
    };
    let Ok(tail) = create_cut(&mut disk, &mut head) else {
        return Err(Fail::new("not created"));
    };
    is_tail(&rt, &[], &tail, (44, 9));
    assert_eq!(&rt; disk.bytes(), CUT.as_slice());
    Ok(())
}
