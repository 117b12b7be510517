//! Logs with the entries of an account, and what it held at some LSNs.

ghost use Rattle.std.specs.Prelude.{List};
ghost use Rattle.log_record.specs.declared.rec.Placed.{Placed};
ghost use Rattle.lock_core.specs.Sums.{Opening};
ghost use Rattle.ledger_view.specs.ViewedAccounts.{HasViewed};

use crate::cut::{BACK, cut_and};
use crate::images::{GENESIS, TRANSFER, image};
use crate::view_plainly::is_same;
use crate::view_units::{
    ALL, ALL_BACK, EIGHT_LEGS, GREATEST, GREATEST_SECOND, NOTHING, REFUSED, RICH, TWO_LEGS,
    UNFINISHED,
};
use ledger_view::{Entries, View};
use log_recovery::taken;
use lsn_space::Lsn;
use std::alloc::AllocGlobal;
use std::process::Abort;
use std::test::Fail;

/// Where a Commit ends, its transaction, its net and the balance behind it.
type Line = (u32, u32, i64, u64);

/// A log's batches; an account; its first balance and its entries, if it is known; and what it held at some LSNs.
type Row = (
    &'static [&'static [u64]],
    u32,
    Option<(u64, &'static [Line])>,
    &'static [(u32, Option<u64>)],
);

const ROWS: &[Row] = &[
    (
        &[&GENESIS],
        0,
        Some((100, &[])),
        &[(1, None), (2, Some(100)), (4, Some(100))],
    ),
    (
        &[&GENESIS],
        1,
        Some((0, &[])),
        &[(2, None), (3, None), (4, Some(0)), (5, Some(0))],
    ),
    (
        &[&GENESIS],
        2,
        None,
        &[(0, None), (4, None), (4294967295, None)],
    ),
    (
        &[&GENESIS, &TRANSFER, &BACK],
        0,
        Some((100, &[(9, 1, -30, 70), (14, 2, 30, 100)])),
        &[
            (0, None),
            (2, Some(100)),
            (8, Some(100)),
            (9, Some(70)),
            (13, Some(70)),
            (14, Some(100)),
            (4294967295, Some(100)),
        ],
    ),
    (
        &[&GENESIS, &TRANSFER, &BACK],
        1,
        Some((0, &[(9, 1, 30, 30), (14, 2, -30, 0)])),
        &[
            (3, None),
            (8, Some(0)),
            (9, Some(30)),
            (10, Some(30)),
            (14, Some(0)),
        ],
    ),
    (
        &[&GENESIS, &TWO_LEGS],
        0,
        Some((100, &[(13, 1, -50, 50)])),
        &[(12, Some(100)), (13, Some(50))],
    ),
    (
        &[&GENESIS, &TWO_LEGS],
        1,
        Some((0, &[(13, 1, 50, 50)])),
        &[(12, Some(0)), (13, Some(50))],
    ),
    (
        &[&GENESIS, &NOTHING],
        0,
        Some((100, &[(13, 1, 0, 100)])),
        &[(13, Some(100))],
    ),
    (
        &[&RICH, &ALL],
        0,
        Some((2147483647, &[(9, 1, -2147483647, 0)])),
        &[(8, Some(2147483647)), (9, Some(0))],
    ),
    (
        &[&RICH, &ALL],
        1,
        Some((0, &[(9, 1, 2147483647, 2147483647)])),
        &[(9, Some(2147483647))],
    ),
    (
        &[&RICH, &EIGHT_LEGS],
        0,
        Some((2147483647, &[(37, 1, 0, 2147483647)])),
        &[(37, Some(2147483647))],
    ),
    (
        &[&RICH, &EIGHT_LEGS],
        1,
        Some((0, &[(37, 1, 0, 0)])),
        &[(36, Some(0)), (37, Some(0))],
    ),
    (
        &[&GENESIS, &REFUSED],
        0,
        Some((100, &[])),
        &[(9, Some(100))],
    ),
    (&[&GENESIS, &UNFINISHED], 1, Some((0, &[])), &[(8, Some(0))]),
];

/// At the greatest balance: what goes from it and comes back, and eight legs there and back, which move nothing.
const WIDE: &[Row] = &[
    (
        &[&GREATEST, &ALL, &ALL_BACK],
        0,
        Some((
            4611686018427387903,
            &[
                (9, 1, -2147483647, 4611686016279904256),
                (14, 2, 2147483647, 4611686018427387903),
            ],
        )),
        &[
            (2, Some(4611686018427387903)),
            (8, Some(4611686018427387903)),
            (9, Some(4611686016279904256)),
            (13, Some(4611686016279904256)),
            (14, Some(4611686018427387903)),
        ],
    ),
    (
        &[&GREATEST, &EIGHT_LEGS],
        0,
        Some((4611686018427387903, &[(37, 1, 0, 4611686018427387903)])),
        &[
            (36, Some(4611686018427387903)),
            (37, Some(4611686018427387903)),
        ],
    ),
    // The first four legs would overfill it.
    (
        &[&GREATEST_SECOND, &EIGHT_LEGS],
        1,
        Some((4611686018427387903, &[(37, 1, 0, 4611686018427387903)])),
        &[(37, Some(4611686018427387903))],
    ),
];

/// The same behind a log that was cut at 9.
const BEHIND: &[Row] = &[
    (&[], 0, Some((70, &[])), &[(0, Some(70)), (9, Some(70))]),
    (
        &[&BACK],
        0,
        Some((70, &[(14, 2, 30, 100)])),
        &[(0, Some(70)), (13, Some(70)), (14, Some(100))],
    ),
    (
        &[&BACK],
        1,
        Some((30, &[(14, 2, -30, 0)])),
        &[(8, Some(30)), (14, Some(0))],
    ),
    (&[&BACK], 2, None, &[(9, None), (14, None)]),
];

fn are_lines(rt: &impl Abort, account: u32, entries: &Entries, lines: &[Line]) {
    assert_eq!(rt; entries.count(), lines.len(), "{account}");
    'entries: for i in 0..entries.count() {
        let entry = entries.at(i);
        let found = (entry.end.units(), entry.txn, entry.net, entry.balance);
        assert_eq!(rt; Some(&found), lines.get(i), "{account}");
    }
}

/// The view answers what the row says.
fn has_answers(rt: &impl Abort, view: &View, row: &Row)
    requires viewed { (opening : Opening) × (h : List Placed) × HasViewed opening view.now h }
{
    let (_, account, lines, held) = row;
    match (view.entries(*account), lines) {
        (Some(entries), Some((first, lines))) => {
            assert_eq!(rt; view.first_balance(*account), Some(*first), "{account}");
            are_lines(rt, *account, entries, lines);
        }
        (None, None) => assert_eq!(rt; view.first_balance(*account), None, "{account}"),
        _ => panic!(rt; "known or not: {account}"),
    }
    for (lsn, balance) in *held {
        let found = view.balance_at(*account, Lsn::new(*lsn));
        assert_eq!(rt; found, *balance, "{account} at {lsn}");
    }
}

/// The view of the log answers what the row says.
fn is_answered<R: AllocGlobal + Abort>(rt: &R, bytes: &[u8], row: &Row) {
    let Ok(both) = taken::<View>(rt.alloc(), bytes) else {
        panic!(rt; "refused: {bytes:?}");
    };
    has_answers(rt, &both.0, row);
}

/// Views of these whole logs answer so, and as the plain program does.
fn are_answered<R: AllocGlobal + Abort>(rt: &R, rows: &[Row]) -> Result<(), Fail> {
    for row in rows {
        let bytes = image(rt.alloc(), row.0)?;
        is_answered(rt, bytes.as_slice(), row);
        assert!(rt; is_same(rt.alloc(), bytes.as_slice()), "{}", row.1);
    }
    Ok(())
}

#[test]
fn whole_logs(rt: HostRuntime) -> Result<(), Fail> {
    are_answered(&rt, ROWS)?;
    are_answered(&rt, WIDE)
}

#[test]
fn cut_logs(rt: HostRuntime) -> Result<(), Fail> {
    for row in BEHIND {
        let bytes = cut_and(rt.alloc(), row.0)?;
        is_answered(&rt, bytes.as_slice(), row);
        assert!(rt; is_same(rt.alloc(), bytes.as_slice()), "{}", row.1);
    }
    Ok(())
}
