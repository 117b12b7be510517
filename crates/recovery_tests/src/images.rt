//! Whole images of logs, as batches of units. Most begin with the genesis log's batch: accounts 0 and 1, of balances
//! 100 and 0.

use crate::answers::{Fault, has_same_answers, is_recovered, is_refused};
use log_recovery::Why;
use lsn_space::bytes_of;
use std::alloc::{AllocError, AllocGlobal, Global};
use std::process::Abort;
use std::test::Fail;

pub(crate) const GENESIS: [u64; 4] = [0x0102_0000_0000_0000, 100, 0x0102_0001_0000_0000, 0];

/// 30 from account 0 to account 1, by transaction 1.
pub(crate) const TRANSFER: [u64; 5] = [
    0x0202_0000_0000_0001,
    0xffff_ffe2_0000_0000,
    0x0202_0001_0000_0001,
    0x0000_001e_0000_0000,
    0x0301_0001_0000_0001,
];

/// Adds a count and so many units to the bytes of a log file.
pub(crate) fn push_units(bytes: &mut Vec<u8>, units: &[u64]) -> Result<(), AllocError> {
    let count = u32::try_from(units.len()).unwrap_or(0);
    bytes.extend_from_slice(&count.to_be_bytes())?;
    for unit in units {
        bytes.extend_from_slice(&bytes_of(*unit))?;
    }
    Ok(())
}

/// A log file of these batches, and a closed gate.
pub(crate) fn image(alloc: Global, batches: &[&[u64]]) -> Result<Vec<u8>, AllocError> {
    let mut bytes = Vec::new(alloc);
    for (i, units) in batches.iter().enumerate() {
        bytes.push(b'O')?;
        if i == 0 {
            bytes.extend_from_slice(b"AETHER1")?;
        }
        push_units(&mut bytes, units)?;
    }
    bytes.push(0)?;
    Ok(bytes)
}

/// A lawful image: its batches, the end of its list with the next transaction number, and the rows of its accounts.
type Lawful = (&'static [&'static [u64]], (u32, u64), &'static [(u64, u32)]);

const LAWFUL: &[Lawful] = &[
    (&[&GENESIS], (4, 1), &[(100, 0), (0, 0)]),
    (&[&GENESIS, &TRANSFER], (9, 2), &[(70, 9), (30, 9)]),
    // An unfinished transfer has no effect.
    (
        &[
            &GENESIS,
            &[
                0x0202_0000_0000_0007,
                0xffff_ffe2_0000_0000,
                0x0202_0001_0000_0007,
                0x0000_001e_0000_0000,
            ],
        ],
        (8, 8),
        &[(100, 0), (0, 0)],
    ),
    // The greatest transaction number.
    (
        &[&GENESIS, &[0x0401_0001_ffff_ffff]],
        (5, 4294967296),
        &[(100, 0), (0, 0)],
    ),
    // The note `hi`.
    (
        &[&GENESIS, &[0x0602_0002_0000_0001, 0x6869_0000_0000_0000]],
        (6, 2),
        &[(100, 0), (0, 0)],
    ),
    (
        &[&GENESIS, &[0x0102_0002_0000_0000, 7]],
        (6, 1),
        &[(100, 0), (0, 0), (7, 0)],
    ),
];

/// The image of these batches is recovered so.
fn recovers<R: AllocGlobal + Abort>(
    rt: &R,
    batches: &[&[u64]],
    end: (u32, u64),
    rows: &[(u64, u32)],
) -> Result<(), Fail> {
    let bytes = image(rt.alloc(), batches)?;
    is_recovered(rt, "image", bytes.as_slice(), end, rows)?;
    has_same_answers(rt, "image", bytes.as_slice());
    Ok(())
}

#[test]
fn recovers_lawful_lists(rt: HostRuntime) -> Result<(), Fail> {
    for (batches, end, rows) in LAWFUL {
        recovers(&rt, batches, *end, rows)?;
    }
    // A record may lie across two batches.
    let (front, back) = TRANSFER.split_at(1);
    let batches: [&[u64]; 3] = [&GENESIS, front, back];
    recovers(&rt, &batches, (9, 2), &[(70, 9), (30, 9)])
}

/// What the table of hostile images hasn't.
const FAULTY: &[(&[&[u64]], Fault)] = &[
    // A bad record hides an unlawful one before it.
    (&[&[0x0102_0001_0000_0000, 0, 0]], Fault::BadRec(2)),
    (&[&TRANSFER], Fault::Unlawful(0, Why::Genesis)),
    (
        &[&GENESIS, &[0x0501_0002_0000_0001]],
        Fault::Unlawful(4, Why::Legs),
    ),
    (
        &[&GENESIS, &[0x0202_0000_0000_0001, 0xffff_ffe2_0000_0004]],
        Fault::Unlawful(4, Why::Prev),
    ),
];

/// The image of these batches is refused so.
fn refuses<R: AllocGlobal + Abort>(rt: &R, batches: &[&[u64]], fault: &Fault) -> Result<(), Fail> {
    let bytes = image(rt.alloc(), batches)?;
    is_refused(rt, "image", bytes.as_slice(), fault);
    Ok(())
}

#[test]
fn names_the_first_fault(rt: HostRuntime) -> Result<(), Fail> {
    for (batches, fault) in FAULTY {
        refuses(&rt, batches, fault)?;
    }
    Ok(())
}

/// A cut batch behind a bad record.
fn cut_batch(alloc: Global) -> Result<Vec<u8>, AllocError> {
    let mut bytes = image(alloc, &[&[5]])?;
    let _gate = bytes.pop();
    bytes.extend_from_slice(b"O\0")?;
    Ok(bytes)
}

#[test]
fn names_a_file_that_is_no_log(rt: HostRuntime) -> Result<(), Fail> {
    is_refused(
        &rt,
        "another format",
        b"OAETHER3\0\0\0\x01",
        &Fault::NotALog,
    );
    // The cut batch hides the bad record before it.
    let bytes = cut_batch(rt.alloc())?;
    is_refused(&rt, "a cut batch", bytes.as_slice(), &Fault::BadBatch(20));
    Ok(())
}

/// The log of 2000 transfers of 1, back and forth.
fn back_and_forth(alloc: Global) -> Result<Vec<u8>, AllocError> {
    let mut units = Vec::from_slice(alloc, &GENESIS)?;
    let mut prev = 0;
    for txn in 1..=2000u64 {
        let (from, to) = if txn % 2 == 1 {
            (0, 0x1_0000_0000)
        } else {
            (0x1_0000_0000, 0)
        };
        units.extend_from_slice(&[
            0x0202_0000_0000_0000 | from | txn,
            0xffff_ffff_0000_0000 | prev,
            0x0202_0000_0000_0000 | to | txn,
            0x0000_0001_0000_0000 | prev,
            0x0301_0001_0000_0000 | txn,
        ])?;
        prev = 4 + 5 * txn;
    }
    image(alloc, &[units.as_slice()])
}

#[test]
fn recovers_two_thousand_transfers(rt: HostRuntime) -> Result<(), Fail> {
    let bytes = back_and_forth(rt.alloc())?;
    let rows = [(100, 10004), (0, 10004)];
    is_recovered(
        &rt,
        "2000 transfers",
        bytes.as_slice(),
        (10004, 2001),
        &rows,
    )
}

/// The log of so many refused transfers, numbered by `number`, that are all open at once: first each takes 1 from account 0,
/// then each adds it to account 1, then each ends.
fn open_at_once(alloc: Global, count: u64, spread: u64) -> Result<Vec<u8>, AllocError> {
    let mut units = Vec::from_slice(alloc, &GENESIS)?;
    for i in 0..count {
        let txn = 1 + i.wrapping_mul(spread) % 0xffff_ffff;
        units.extend_from_slice(&[0x0202_0000_0000_0000 | txn, 0xffff_ffff_0000_0000])?;
    }
    for i in 0..count {
        let txn = 1 + i.wrapping_mul(spread) % 0xffff_ffff;
        units.extend_from_slice(&[0x0202_0001_0000_0000 | txn, 0x0000_0001_0000_0000])?;
    }
    for i in 0..count {
        let txn = 1 + i.wrapping_mul(spread) % 0xffff_ffff;
        units.push(0x0401_0002_0000_0000 | txn)?;
    }
    image(alloc, &[units.as_slice()])
}

/// The log of 300 transfers that are all open at once has this next transaction number, and none has an effect.
fn recovers_open_at_once<R: AllocGlobal + Abort>(
    rt: &R,
    name: &str,
    spread: u64,
    next_txn: u64,
) -> Result<(), Fail> {
    let bytes = open_at_once(rt.alloc(), 300, spread)?;
    let rows = [(100, 0), (0, 0)];
    is_recovered(rt, name, bytes.as_slice(), (1504, next_txn), &rows)?;
    has_same_answers(rt, name, bytes.as_slice());
    Ok(())
}

const SPREADS: &[(&str, u64, u64)] = &[
    ("spread 1", 1, 301),
    ("spread 7", 7, 2095),
    ("spread 14316557", 14316557, 4280650545),
];

#[test]
fn transactions_that_are_open_at_once(rt: HostRuntime) -> Result<(), Fail> {
    for (name, spread, next_txn) in SPREADS {
        recovers_open_at_once(&rt, name, *spread, *next_txn)?;
    }
    Ok(())
}

/// A second end of this transaction is refused, also with the end of another between.
fn ends_once<R: AllocGlobal + Abort>(rt: &R, txn: u64) -> Result<(), Fail> {
    let end = 0x0401_0001_0000_0000 | txn;
    let batch = [end, 0x0401_0001_0000_0000 | 9, end];
    refuses(rt, &[&GENESIS, &batch], &Fault::Unlawful(6, Why::Ended))
}

#[test]
fn far_numbers_end_once(rt: HostRuntime) -> Result<(), Fail> {
    for txn in [1, 4095, 4096, 70000, 0x8000_0000, 0xffff_ffff] {
        ends_once(&rt, txn)?;
    }
    Ok(())
}
