//! What `judged` answers.

use crate::answers::{Fault, is_fault};
use crate::cut::cut_and;
use crate::images::{GENESIS, TRANSFER, image};
use lock_core::Judge;
use log_recovery::{Why, judged};
use segment_file::Tail;
use std::alloc::AllocGlobal;
use std::process::Abort;
use std::test::Fail;

/// Transaction 7 takes 30 from account 0 and gives them to account 1, and has no end record.
const UNFINISHED: [u64; 4] = [
    0x0202_0000_0000_0007,
    0xffff_ffe2_0000_0000,
    0x0202_0001_0000_0007,
    0x0000_001e_0000_0000,
];

/// Where the file goes on and the list ends, and the greatest transaction number.
type End = (u64, u32, u32);

fn has_end(rt: &impl Abort, name: &str, judge: &Judge, tail: Tail, end: End) {
    assert_eq!(rt;
        (tail.at, tail.next.units(), judge.greatest_txn()),
        end,
        "{name}"
    );
}

/// A judge is answered that has taken a list with that end.
fn is_judged<R: AllocGlobal + Abort>(
    rt: &R,
    name: &str,
    bytes: &[u8],
    end: End,
) -> Result<(), Fail> {
    let Ok((judge, tail)) = judged(rt.alloc(), bytes) else {
        return Err(Fail::new("not judged"));
    };
    has_end(rt, name, &judge, tail, end);
    Ok(())
}

#[test]
fn judges_a_whole_log(rt: HostRuntime) -> Result<(), Fail> {
    let genesis = image(rt.alloc(), &[&GENESIS])?;
    is_judged(&rt, "genesis", genesis.as_slice(), (44, 4, 0))?;
    let done = image(rt.alloc(), &[&GENESIS, &TRANSFER])?;
    is_judged(&rt, "one transfer", done.as_slice(), (89, 9, 1))?;
    let open = image(rt.alloc(), &[&GENESIS, &UNFINISHED])?;
    is_judged(&rt, "unfinished", open.as_slice(), (81, 8, 7))
}

#[test]
fn judges_a_log_that_was_cut(rt: HostRuntime) -> Result<(), Fail> {
    let cut = cut_and(rt.alloc(), &[])?;
    is_judged(&rt, "cut", cut.as_slice(), (44, 9, 1))
}

/// Batches behind the accounts' that no judge takes.
const REFUSED: &[(&[u64], Fault)] = &[
    (&[0x0301_0001_0000_0001], Fault::Unlawful(4, Why::Legs)),
    (&[0x0301_0001_0000_0001, 0], Fault::BadRec(5)),
];

fn is_refused<R: AllocGlobal + Abort>(rt: &R, bytes: &[u8], fault: &Fault) {
    is_fault(rt, "judged", bytes, judged(rt.alloc(), bytes).err(), fault);
}

#[test]
fn judges_no_hostile_log(rt: HostRuntime) -> Result<(), Fail> {
    is_refused(&rt, b"OAETHER3", &Fault::NotALog);
    is_refused(&rt, b"OAETHER1\0\0\0\x04", &Fault::BadBatch(0));
    for (units, fault) in REFUSED {
        let bytes = image(rt.alloc(), &[&GENESIS, units])?;
        is_refused(&rt, bytes.as_slice(), fault);
    }
    Ok(())
}
