//! Logs with balances up to the greatest, 4611686018427387903, and above it.

use crate::answers::{Fault, has_same_answers, is_dumped, is_recovered, is_refused};
use crate::cut::{head_of, is_refused as is_cut_refused};
use crate::images::{TRANSFER, image};
use log_recovery::Why;
use lsn_space::MOST_BALANCE;
use std::alloc::{AllocGlobal, Global};
use std::process::Abort;
use std::test::Fail;

/// Accounts 0 and 1, of these balances.
fn genesis(balances: (u64, u64)) -> [u64; 4] {
    [
        0x0102_0000_0000_0000,
        balances.0,
        0x0102_0001_0000_0000,
        balances.1,
    ]
}

/// The image of these accounts and a batch behind them.
fn image_of(alloc: Global, balances: (u64, u64), units: &[u64]) -> Result<Vec<u8>, Fail> {
    Ok(image(alloc, &[&genesis(balances), units])?)
}

/// 7 from account 1 to account 0, by transaction 1.
const SEVEN: [u64; 5] = [
    0x0202_0001_0000_0001,
    0xffff_fff9_0000_0000,
    0x0202_0000_0000_0001,
    0x0000_0007_0000_0000,
    0x0301_0001_0000_0001,
];

/// The same, and then 7 back, by one transaction.
const SEVEN_AND_BACK: [u64; 9] = [
    0x0202_0001_0000_0001,
    0xffff_fff9_0000_0000,
    0x0202_0000_0000_0001,
    0x0000_0007_0000_0000,
    0x0202_0000_0000_0001,
    0xffff_fff9_0000_0000,
    0x0202_0001_0000_0001,
    0x0000_0007_0000_0000,
    0x0301_0002_0000_0001,
];

/// What two accounts begin with, the transaction behind them, where the list ends, and what they have then.
type Lawful = ((u64, u64), &'static [u64], u32, (u64, u64));

const LAWFUL: &[Lawful] = &[
    // The first leg alone would overfill account 0: what counts is what the whole transaction moves.
    (
        (MOST_BALANCE, 100),
        &SEVEN_AND_BACK,
        13,
        (MOST_BALANCE, 100),
    ),
    ((MOST_BALANCE - 7, 100), &SEVEN, 9, (MOST_BALANCE, 93)),
    (
        (MOST_BALANCE, MOST_BALANCE - 30),
        &TRANSFER,
        9,
        (MOST_BALANCE - 30, MOST_BALANCE),
    ),
];

/// The log of the row is recovered as it says.
fn recovers<R: AllocGlobal + Abort>(rt: &R, row: &Lawful) -> Result<(), Fail> {
    let (balances, units, end, left) = row;
    let bytes = image_of(rt.alloc(), *balances, units)?;
    let rows = [(left.0, *end), (left.1, *end)];
    is_recovered(rt, "wide", bytes.as_slice(), (*end, 2), &rows)?;
    has_same_answers(rt, "wide", bytes.as_slice());
    Ok(())
}

#[test]
fn accounts_are_filled_to_the_greatest_balance(rt: HostRuntime) -> Result<(), Fail> {
    for row in LAWFUL {
        recovers(&rt, row)?;
    }
    Ok(())
}

/// What two accounts begin with, and a transaction that overfills one of them by its Commit, which stands at 8.
const OVERFULL: &[((u64, u64), &[u64])] = &[
    ((MOST_BALANCE, 100), &SEVEN),
    ((MOST_BALANCE - 6, 100), &SEVEN),
    ((100, MOST_BALANCE - 29), &TRANSFER),
];

#[test]
fn no_commit_goes_above_the_greatest_balance(rt: HostRuntime) -> Result<(), Fail> {
    for (balances, units) in OVERFULL {
        let bytes = image_of(rt.alloc(), *balances, units)?;
        is_refused(
            &rt,
            "overfull",
            bytes.as_slice(),
            &Fault::Unlawful(8, Why::Balance),
        );
    }
    Ok(())
}

/// What two accounts begin with, where one has more than the greatest balance, and the first bad record.
const TOO_GREAT: &[((u64, u64), Fault)] = &[
    ((0x4000_0000_0000_0000, MOST_BALANCE), Fault::BadRec(0)),
    ((0x8000_0000_0000_0000, MOST_BALANCE), Fault::BadRec(0)),
    ((0xffff_ffff_ffff_ffff, MOST_BALANCE), Fault::BadRec(0)),
    ((MOST_BALANCE, 0x4000_0000_0000_0000), Fault::BadRec(2)),
    ((MOST_BALANCE, 0x8000_0000_0000_0000), Fault::BadRec(2)),
    ((MOST_BALANCE, 0xffff_ffff_ffff_ffff), Fault::BadRec(2)),
];

/// The accounts are none of a log: this record is bad, or a batch behind it that is cut; nor are they those of a head.
fn refuses<R: AllocGlobal + Abort>(
    rt: &R,
    balances: (u64, u64),
    fault: &Fault,
) -> Result<(), Fail> {
    let mut bytes = image(rt.alloc(), &[&genesis(balances)])?;
    is_refused(rt, "too great", bytes.as_slice(), fault);
    bytes.pop();
    bytes.extend_from_slice(b"O\0")?;
    is_refused(rt, "and cut", bytes.as_slice(), &Fault::BadBatch(44));
    let head = head_of(rt.alloc(), balances)?;
    is_cut_refused(rt, head.as_slice(), &Fault::BadSnapshot);
    Ok(())
}

#[test]
fn no_account_begins_above_the_greatest_balance(rt: HostRuntime) -> Result<(), Fail> {
    for (balances, fault) in TOO_GREAT {
        refuses(&rt, *balances, fault)?;
    }
    Ok(())
}

/// A log of both accounts at the greatest balance is recovered, and dumped so.
fn is_shown<R: AllocGlobal + Abort>(
    rt: &R,
    name: &str,
    bytes: &[u8],
    end: (u32, u64),
    last: u32,
    text: &[u8],
) -> Result<(), Fail> {
    let rows = [(MOST_BALANCE, last), (MOST_BALANCE, last)];
    is_recovered(rt, name, bytes, end, &rows)?;
    is_dumped(rt, name, bytes, text)
}

const GENESIS_DUMP: &[u8] =
    b"0 genesis 0 4611686018427387903\n2 genesis 1 4611686018427387903\nlsn 4\n";

const HEAD_DUMP: &[u8] =
    b"snapshot 9 1\naccount 0 4611686018427387903 9\naccount 1 4611686018427387903 9\nlsn 9\n";

#[test]
fn the_greatest_balance_is_recovered_and_dumped(rt: HostRuntime) -> Result<(), Fail> {
    let most = (MOST_BALANCE, MOST_BALANCE);
    let new = image(rt.alloc(), &[&genesis(most)])?;
    is_shown(&rt, "new", new.as_slice(), (4, 1), 0, GENESIS_DUMP)?;
    let cut = head_of(rt.alloc(), most)?;
    is_shown(&rt, "cut", cut.as_slice(), (9, 2), 9, HEAD_DUMP)
}
