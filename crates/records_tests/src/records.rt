//! Records and their units, from the format's table.

use log_record::{BadRec, Rec, Text, read, spell};
use lsn_space::Lsn;
use std::process::Abort;

fn is_same(rt: &impl Abort, units: &[u64], want: &[u64]) {
    assert_eq!(rt; units, want);
}

/// These units are read as this record, which is spelled so.
fn is_read_and_spelled(rt: &impl Abort, units: &[u64], want: &Rec) {
    let Ok((rec, count)) = read(units) else {
        assert!(rt; false, "{want:?}");
        return;
    };
    assert_eq!(rt; &rec, want);
    assert_eq!(rt; count, units.len());
    is_same(rt, spell(&rec).as_slice(), units);
}

#[test]
fn reads_and_spells(rt: HostRuntime) {
    is_read_and_spelled(
        &rt,
        &[0x0102_0000_0000_0000, 0x0000_0000_0000_0064],
        &Rec::Genesis {
            account: 0,
            balance: 100,
        },
    );
    is_read_and_spelled(
        &rt,
        &[0x0202_0000_0000_0001, 0xffff_ffe2_0000_0000],
        &Rec::Update {
            txn: 1,
            account: 0,
            delta: -30,
            prev: Lsn::new(0),
        },
    );
    is_read_and_spelled(
        &rt,
        &[0x0202_0fff_ffff_ffff, 0x7fff_ffff_ffff_ffff],
        &Rec::Update {
            txn: 0xffff_ffff,
            account: 4095,
            delta: 0x7fff_ffff,
            prev: Lsn::new(0xffff_ffff),
        },
    );
    is_read_and_spelled(
        &rt,
        &[0x0301_0001_0000_0001],
        &Rec::Commit { txn: 1, legs: 1 },
    );
    is_read_and_spelled(
        &rt,
        &[0x0401_0008_0000_0001],
        &Rec::Short { txn: 1, leg: 8 },
    );
    is_read_and_spelled(&rt, &[0x0501_0002_0000_0003], &Rec::Over { txn: 3, leg: 2 });
    is_read_and_spelled(
        &rt,
        &[0x0602_0002_0000_0001, 0x6869_0000_0000_0000],
        &Rec::Note {
            txn: 1,
            text: Text::from_bytes(b"hi"),
        },
    );
    let mut longest = [0x7e7e_7e7e_7e7e_7e7e; 26];
    longest[0] = 0x061a_00c8_0000_0001;
    is_read_and_spelled(
        &rt,
        &longest,
        &Rec::Note {
            txn: 1,
            text: Text::from_bytes(&[0x7e; 200]),
        },
    );
}

#[test]
fn reads_what_is_in_front(rt: HostRuntime) {
    let units = [0x0301_0001_0000_0001, 0x0301_0001_0000_0002];
    assert_eq!(rt; read(&units), Ok((Rec::Commit { txn: 1, legs: 1 }, 1)));
}

const KINDS_AND_GENESIS: &[(&str, &[u64])] = &[
    ("no units", &[]),
    ("kind 0", &[0x0001_0001_0000_0001]),
    ("kind 7", &[0x0701_0001_0000_0001]),
    ("cut genesis", &[0x0102_0000_0000_0000]),
    ("genesis of a transaction", &[0x0102_0000_0000_0001, 0x64]),
    ("genesis of account 4096", &[0x0102_1000_0000_0000, 0x64]),
    (
        "balance 2^62",
        &[0x0102_0000_0000_0000, 0x4000_0000_0000_0000],
    ),
    ("genesis of 1 unit", &[0x0101_0000_0000_0000, 0x64]),
    ("genesis of 3 units", &[0x0103_0000_0000_0000, 0x64, 0]),
];

const UPDATES: &[(&str, &[u64])] = &[
    ("cut update", &[0x0202_0000_0000_0001]),
    (
        "update of transaction 0",
        &[0x0202_0000_0000_0000, 0x1_0000_0000],
    ),
    (
        "update of account 4096",
        &[0x0202_1000_0000_0001, 0x1_0000_0000],
    ),
    ("delta 0", &[0x0202_0000_0000_0001, 0x0000_0000_0000_0004]),
    (
        "delta -2147483648",
        &[0x0202_0000_0000_0001, 0x8000_0000_0000_0000],
    ),
];

const ENDS: &[(&str, &[u64])] = &[
    ("commit of transaction 0", &[0x0301_0001_0000_0000]),
    ("0 legs", &[0x0301_0000_0000_0001]),
    ("9 legs", &[0x0301_0009_0000_0001]),
    ("commit of 0 units", &[0x0300_0001_0000_0001]),
    ("commit of 2 units", &[0x0302_0001_0000_0001, 0]),
    ("short at leg 0", &[0x0401_0000_0000_0001]),
    ("short at leg 9", &[0x0401_0009_0000_0001]),
    ("over at leg 0", &[0x0501_0000_0000_0001]),
    ("over at leg 9", &[0x0501_0009_0000_0001]),
];

const NOTES: &[(&str, &[u64])] = &[
    ("cut note", &[0x0602_0002_0000_0001]),
    ("empty note", &[0x0601_0000_0000_0001]),
    (
        "note of transaction 0",
        &[0x0602_0002_0000_0000, 0x6869_0000_0000_0000],
    ),
    ("padding", &[0x0602_0002_0000_0001, 0x6869_0000_0000_0001]),
    ("byte 1f", &[0x0602_0002_0000_0001, 0x681f_0000_0000_0000]),
    ("byte 7f", &[0x0602_0002_0000_0001, 0x687f_0000_0000_0000]),
    ("byte 0", &[0x0602_0002_0000_0001, 0x6800_0000_0000_0000]),
    (
        "note of 1 unit",
        &[0x0601_0002_0000_0001, 0x6869_0000_0000_0000],
    ),
    (
        "note of 3 units",
        &[0x0603_0002_0000_0001, 0x6869_0000_0000_0000, 0],
    ),
];

/// Balances above the greatest.
const TOO_GREAT: &[(&str, &[u64])] = &[
    (
        "balance 2^62",
        &[0x0102_0001_0000_0000, 0x4000_0000_0000_0000],
    ),
    (
        "balance 2^63",
        &[0x0102_0001_0000_0000, 0x8000_0000_0000_0000],
    ),
    (
        "balance 2^64 - 1",
        &[0x0102_0001_0000_0000, 0xffff_ffff_ffff_ffff],
    ),
];

#[test]
fn a_genesis_has_up_to_the_greatest_balance(rt: HostRuntime) {
    is_read_and_spelled(
        &rt,
        &[0x0102_0001_0000_0000, 0x3fff_ffff_ffff_ffff],
        &Rec::Genesis {
            account: 1,
            balance: 4611686018427387903,
        },
    );
    are_refused(&rt, TOO_GREAT);
}

/// These units begin with no record.
fn is_refused(rt: &impl Abort, why: &str, units: &[u64]) {
    assert_eq!(rt; read(units), Err(BadRec), "{why}");
}

fn are_refused(rt: &impl Abort, cases: &[(&str, &[u64])]) {
    for (why, units) in cases {
        is_refused(rt, why, units);
    }
}

#[test]
fn refuses_what_is_no_record(rt: HostRuntime) {
    are_refused(&rt, KINDS_AND_GENESIS);
    are_refused(&rt, UPDATES);
    are_refused(&rt, ENDS);
    are_refused(&rt, NOTES);
    let mut too_long = [0x7e7e_7e7e_7e7e_7e7e; 27];
    too_long[0] = 0x061b_00c9_0000_0001;
    too_long[26] = 0x7e00_0000_0000_0000;
    is_refused(&rt, "note of 201 bytes", &too_long);
}
