//! Files of the second format: the log of one transfer, cut, and what stands behind it.

use crate::answers::{Fault, is_fault, is_recovered, is_whole_in_pieces};
use crate::images::push_units;
use log_recovery::{Why, listed, put_dump, recover};
use memory_disk::MemorySink;
use std::alloc::{AllocError, AllocGlobal, Global};
use std::process::Abort;
use std::test::Fail;

/// Its list begins at 9, behind transaction 1; the accounts have 70 and 30, each last changed at 9.
const CUT: [u8; 44] = [
    0x4f, 0x41, 0x45, 0x54, 0x48, 0x45, 0x52, 0x32, //
    0, 0, 0, 9, 0, 0, 0, 1, 0, 0, 0, 2, //
    0, 0, 0, 0, 0, 0, 0, 0x46, 0, 0, 0, 9, //
    0, 0, 0, 0, 0, 0, 0, 0x1e, 0, 0, 0, 9,
];

/// 30 from account 1 back to account 0, by transaction 2, where both were last changed at 9.
pub(crate) const BACK: [u64; 5] = [
    0x0202_0001_0000_0002,
    0xffff_ffe2_0000_0009,
    0x0202_0000_0000_0002,
    0x0000_001e_0000_0009,
    0x0301_0001_0000_0002,
];

/// The file with these batches behind its head.
pub(crate) fn cut_and(alloc: Global, batches: &[&[u64]]) -> Result<Vec<u8>, AllocError> {
    let mut bytes = Vec::from_slice(alloc, &CUT)?;
    for units in batches {
        bytes.push(b'O')?;
        push_units(&mut bytes, units)?;
    }
    bytes.push(0)?;
    Ok(bytes)
}

/// A file of the head alone, with these balances in its two rows.
pub(crate) fn head_of(alloc: Global, balances: (u64, u64)) -> Result<Vec<u8>, AllocError> {
    let mut bytes = Vec::from_slice(alloc, CUT.as_slice().split_at(20).0)?;
    for balance in [balances.0, balances.1] {
        bytes.extend_from_slice(&balance.to_be_bytes())?;
        bytes.extend_from_slice(&[0, 0, 0, 9])?;
    }
    bytes.push(0)?;
    Ok(bytes)
}

/// The file is refused so.
pub(crate) fn is_refused<R: AllocGlobal + Abort>(rt: &R, bytes: &[u8], fault: &Fault) {
    is_fault(rt, "cut", bytes, recover(rt.alloc(), bytes).err(), fault);
    is_whole_in_pieces(rt, "cut", bytes);
}

#[test]
fn recovers_what_was_cut(rt: HostRuntime) -> Result<(), Fail> {
    let cut = cut_and(rt.alloc(), &[])?;
    is_recovered(&rt, "cut", cut.as_slice(), (9, 2), &[(70, 9), (30, 9)])?;
    is_recovered(&rt, "no gate", &CUT, (9, 2), &[(70, 9), (30, 9)])?;
    let back = cut_and(rt.alloc(), &[&BACK])?;
    is_recovered(&rt, "back", back.as_slice(), (14, 3), &[(100, 14), (0, 14)])
}

/// Behind the head: a Genesis; a transaction of the number that was the last; an account that isn't there; units that begin
/// with no record; another predecessor than the mark.
const REFUSED: &[(&[u64], Fault)] = &[
    (
        &[0x0102_0002_0000_0000, 7],
        Fault::Unlawful(9, Why::Genesis),
    ),
    (&[0x0401_0001_0000_0001], Fault::Unlawful(9, Why::Ended)),
    (
        &[0x0202_0002_0000_0002, 0xffff_ffe2_0000_0000],
        Fault::Unlawful(9, Why::Account),
    ),
    (&[0x0401_0001_0000_0002, 0], Fault::BadRec(10)),
    (
        &[0x0202_0001_0000_0002, 0xffff_ffe2_0000_0000],
        Fault::Unlawful(9, Why::Prev),
    ),
];

#[test]
fn refuses_what_is_unlawful_behind_it(rt: HostRuntime) -> Result<(), Fail> {
    for (units, fault) in REFUSED {
        let file = cut_and(rt.alloc(), &[units])?;
        is_refused(&rt, file.as_slice(), fault);
    }
    let (front, _) = CUT.as_slice().split_at(43);
    is_refused(&rt, front, &Fault::BadSnapshot);
    Ok(())
}

/// The dump of the file with these batches behind its head is this text.
fn dumps<R: AllocGlobal + Abort>(rt: &R, batches: &[&[u64]], text: &[u8]) -> Result<(), Fail> {
    let file = cut_and(rt.alloc(), batches)?;
    let Ok(list) = listed(rt.alloc(), file.as_slice()) else {
        return Err(Fail::new("no list"));
    };
    let mut out = MemorySink::make(rt.alloc(), 300, &[]).map_err(|_| Fail::new("no memory"))?;
    assert!(rt; put_dump(&list, &mut out).is_ok());
    assert_eq!(rt; out.bytes(), text);
    Ok(())
}

#[test]
fn dumps_what_stands_before_the_list(rt: HostRuntime) -> Result<(), Fail> {
    dumps(
        &rt,
        &[],
        b"snapshot 9 1\naccount 0 70 9\naccount 1 30 9\nlsn 9\n",
    )?;
    dumps(
        &rt,
        &[&BACK],
        b"snapshot 9 1\naccount 0 70 9\naccount 1 30 9\n9 update 2 1 -30 9\n11 update 2 0 30 9\n13 commit 2 1\nlsn 14\n",
    )
}
