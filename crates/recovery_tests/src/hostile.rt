//! Images that somebody might hand in, each with the one answer that it gets, and its dump where it holds a list.

use crate::answers::{Fault, has_same_answers, is_dumped, is_recovered, is_refused};
use log_recovery::Why;
use std::alloc::{AllocError, AllocGlobal, Global};
use std::process::Abort;
use std::test::Fail;

/// An open gate, the magic bytes and a batch of four units: accounts 0 and 1, of balances 100 and 0.
const FRONT: &[u8] =
    b"OAETHER1\0\0\0\x04\x01\x02\0\0\0\0\0\0\0\0\0\0\0\0\0\x64\x01\x02\0\x01\0\0\0\0\0\0\0\0\0\0\0\0";

const ACCOUNTS: &[u8] =
    b"\x01\x02\0\0\0\0\0\0\0\0\0\0\0\0\0\x64\x01\x02\0\x01\0\0\0\0\0\0\0\0\0\0\0\0";

const CLOSED: &[u8] = b"\0";

const TAKE_30: &[u8] = b"\xff\xff\xff\xe2\0\0\0\0";

const ADD_30: &[u8] = b"\0\0\0\x1e\0\0\0\0";

fn joined(alloc: Global, parts: &[&[u8]]) -> Result<Vec<u8>, AllocError> {
    let mut bytes = Vec::new(alloc);
    for part in parts {
        bytes.extend_from_slice(part)?;
    }
    Ok(bytes)
}

/// The image of these parts is refused so.
fn refuses<R: AllocGlobal + Abort>(
    rt: &R,
    name: &str,
    parts: &[&[u8]],
    fault: &Fault,
) -> Result<(), Fail> {
    let bytes = joined(rt.alloc(), parts)?;
    is_refused(rt, name, bytes.as_slice(), fault);
    Ok(())
}

/// An image that is refused: its name, its parts, and the fault.
type Refused = (&'static str, &'static [&'static [u8]], Fault);

const NO_LOGS: &[Refused] = &[
    ("a gate alone", &[b"O"], Fault::NotALog),
    ("cut magic bytes", &[b"OAETHER"], Fault::NotALog),
    ("another format", &[b"OAETHER3"], Fault::NotALog),
    ("no count", &[b"OAETHER1"], Fault::BadBatch(0)),
    ("a cut count", &[b"OAETHER1\0\0\0"], Fault::BadBatch(0)),
    ("no units", &[b"OAETHER1\0\0\0\x04"], Fault::BadBatch(0)),
    ("a count of 0", &[b"OAETHER1\0\0\0\0"], Fault::BadBatch(0)),
    (
        "too great a count",
        &[b"OAETHER1\0\x10\0\x01"],
        Fault::BadBatch(0),
    ),
    (
        "a count of 3",
        &[b"OAETHER1\0\0\0\x03", ACCOUNTS, CLOSED],
        Fault::BadRec(2),
    ),
    (
        "a cut batch behind a bad record",
        &[
            b"OAETHER1\0\0\0\x04\x01\x02\0\0\0\0\0\0\x80\0\0\0\0\0\0\0\x01\x02\0\x01\0\0\0\0\0\0\0\0\0\0\0\0",
            b"O\0",
        ],
        Fault::BadBatch(44),
    ),
];

#[test]
fn bytes_that_are_no_log(rt: HostRuntime) -> Result<(), Fail> {
    let (cut, _) = FRONT.split_at(43);
    refuses(&rt, "cut units", &[cut], &Fault::BadBatch(0))?;
    for (name, parts, fault) in NO_LOGS {
        refuses(&rt, name, parts, fault)?;
    }
    Ok(())
}

const NO_RECORDS: &[Refused] = &[
    (
        "a balance above the range",
        &[
            b"OAETHER1\0\0\0\x04\x01\x02\0\0\0\0\0\0\x80\0\0\0\0\0\0\0\x01\x02\0\x01\0\0\0\0\0\0\0\0\0\0\0\0",
            CLOSED,
        ],
        Fault::BadRec(0),
    ),
    (
        "a delta of 0",
        &[
            FRONT,
            b"O\0\0\0\x02\x02\x02\0\0\0\0\0\x01\0\0\0\0\0\0\0\0",
            CLOSED,
        ],
        Fault::BadRec(4),
    ),
    (
        "a note whose padding isn't zero",
        &[
            FRONT,
            b"O\0\0\0\x02\x06\x02\0\x02\0\0\0\x01hi\0\0\0\0\0\x01",
            CLOSED,
        ],
        Fault::BadRec(4),
    ),
];

#[test]
fn units_that_are_no_record(rt: HostRuntime) -> Result<(), Fail> {
    for (name, parts, fault) in NO_RECORDS {
        refuses(&rt, name, parts, fault)?;
    }
    Ok(())
}

/// An image of a list that is unlawful: its name, its parts, the fault, and its dump.
type Unlawful = (&'static str, &'static [&'static [u8]], Fault, &'static [u8]);

const UNLAWFUL: &[Unlawful] = &[
    (
        "account 1 first",
        &[
            b"OAETHER1\0\0\0\x04\x01\x02\0\x01\0\0\0\0\0\0\0\0\0\0\0\x64\x01\x02\0\x01\0\0\0\0\0\0\0\0\0\0\0\0",
            CLOSED,
        ],
        Fault::Unlawful(0, Why::Genesis),
        b"0 genesis 1 100\n2 genesis 1 0\nlsn 4\n",
    ),
    (
        "an account that isn't there",
        &[
            FRONT,
            b"O\0\0\0\x02\x02\x02\0\x02\0\0\0\x01",
            TAKE_30,
            CLOSED,
        ],
        Fault::Unlawful(4, Why::Account),
        b"0 genesis 0 100\n2 genesis 1 0\n4 update 1 2 -30 0\nlsn 6\n",
    ),
    (
        "a gain first",
        &[FRONT, b"O\0\0\0\x02\x02\x02\0\0\0\0\0\x01", ADD_30, CLOSED],
        Fault::Unlawful(4, Why::Pair),
        b"0 genesis 0 100\n2 genesis 1 0\n4 update 1 0 30 0\nlsn 6\n",
    ),
    (
        "a commit without updates",
        &[FRONT, b"O\0\0\0\x01\x03\x01\0\x01\0\0\0\x01", CLOSED],
        Fault::Unlawful(4, Why::Legs),
        b"0 genesis 0 100\n2 genesis 1 0\n4 commit 1 1\nlsn 5\n",
    ),
    (
        "a second end",
        &[
            FRONT,
            b"O\0\0\0\x02\x04\x01\0\x01\0\0\0\x01\x04\x01\0\x01\0\0\0\x01",
            CLOSED,
        ],
        Fault::Unlawful(5, Why::Ended),
        b"0 genesis 0 100\n2 genesis 1 0\n4 short 1 1\n5 short 1 1\nlsn 6\n",
    ),
    (
        "a balance below 0",
        &[
            FRONT,
            b"O\0\0\0\x05\x02\x02\0\0\0\0\0\x01\xff\xff\xfe\x0c\0\0\0\0",
            b"\x02\x02\0\x01\0\0\0\x01\0\0\x01\xf4\0\0\0\0\x03\x01\0\x01\0\0\0\x01",
            CLOSED,
        ],
        Fault::Unlawful(8, Why::Balance),
        b"0 genesis 0 100\n2 genesis 1 0\n4 update 1 0 -500 0\n6 update 1 1 500 0\n8 commit 1 1\nlsn 9\n",
    ),
    (
        "an account committed on by another",
        &[
            FRONT,
            b"O\0\0\0\x0a\x02\x02\0\0\0\0\0\x01",
            TAKE_30,
            b"\x02\x02\0\x01\0\0\0\x01",
            ADD_30,
            b"\x02\x02\0\0\0\0\0\x02",
            TAKE_30,
            b"\x02\x02\0\x01\0\0\0\x02",
            ADD_30,
            b"\x03\x01\0\x01\0\0\0\x02\x03\x01\0\x01\0\0\0\x01",
            CLOSED,
        ],
        Fault::Unlawful(13, Why::Stale),
        b"0 genesis 0 100\n2 genesis 1 0\n4 update 1 0 -30 0\n6 update 1 1 30 0\n8 update 2 0 -30 0\n10 update 2 1 30 0\n12 commit 2 1\n13 commit 1 1\nlsn 14\n",
    ),
];

#[test]
fn records_that_are_unlawful(rt: HostRuntime) -> Result<(), Fail> {
    for (name, parts, fault, text) in UNLAWFUL {
        refuses(&rt, name, parts, fault)?;
        is_dumped(&rt, name, joined(rt.alloc(), parts)?.as_slice(), text)?;
    }
    Ok(())
}

/// A lawful image: its name, its parts, the end of its list with the next transaction number, the rows of its accounts, and its dump.
type Lawful = (
    &'static str,
    &'static [&'static [u8]],
    (u32, u64),
    &'static [(u64, u32)],
    &'static [u8],
);

const ODD: &[Lawful] = &[
    (
        "a record across two batches",
        &[
            FRONT,
            b"O\0\0\0\x01\x02\x02\0\0\0\0\0\x07",
            b"O\0\0\0\x03",
            TAKE_30,
            b"\x02\x02\0\x01\0\0\0\x07",
            ADD_30,
            CLOSED,
        ],
        (8, 8),
        &[(100, 0), (0, 0)],
        b"0 genesis 0 100\n2 genesis 1 0\n4 update 7 0 -30 0\n6 update 7 1 30 0\nlsn 8\n",
    ),
    (
        "an account in a later batch",
        &[
            FRONT,
            b"O\0\0\0\x02\x01\x02\0\x02\0\0\0\0\0\0\0\0\0\0\0\x07",
            CLOSED,
        ],
        (6, 1),
        &[(100, 0), (0, 0), (7, 0)],
        b"0 genesis 0 100\n2 genesis 1 0\n4 genesis 2 7\nlsn 6\n",
    ),
];

/// The image of these parts is recovered so.
fn recovers<R: AllocGlobal + Abort>(
    rt: &R,
    name: &str,
    parts: &[&[u8]],
    end: (u32, u64),
    rows: &[(u64, u32)],
) -> Result<(), Fail> {
    let bytes = joined(rt.alloc(), parts)?;
    is_recovered(rt, name, bytes.as_slice(), end, rows)?;
    has_same_answers(rt, name, bytes.as_slice());
    Ok(())
}

#[test]
fn odd_logs_that_are_lawful(rt: HostRuntime) -> Result<(), Fail> {
    for (name, parts, end, rows, text) in ODD {
        recovers(&rt, name, parts, *end, rows)?;
        is_dumped(&rt, name, joined(rt.alloc(), parts)?.as_slice(), text)?;
    }
    Ok(())
}
