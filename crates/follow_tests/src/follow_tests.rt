//! What `follow` answers, row by row.

use crate::calls::follows;
use crate::logs::{
    ACCOUNTS, BACK, BOTH, CUT, CUT_AND_BACK, END, ENDED, ENDED_AND_NONE, FROM_0, FULL, LATE, LATER,
    Log, NO_ACCOUNT, NONE_FROM_9, ONE_TRANSFER, SHIPPED, SHIPPED_BACK, Stream, TEXT, THERE,
    UNLAWFUL, UPGRADED, WITHIN, log_of, stream_of,
};
use cli_rig::{End, GENESIS_LOG};
use log_recovery::Why;
use std::alloc::AllocGlobal;
use std::process::Abort;
use std::sync::Wait;
use std::test::Fail;
use std::thread::Threads;
use std::time::Clock;

/// The bytes of the shipped transfer, as they were worked out by hand.
const SHIPPED_BYTES: &[u8] = b"AESHIP1\0\0\0\x04\0\0\0\x05\
    \x02\x02\0\0\0\0\0\x01\xff\xff\xff\xe2\0\0\0\0\x02\x02\0\x01\0\0\0\x01\0\0\0\x1e\0\0\0\0\x03\x01\0\x01\0\0\0\x01\
    \0\0\0\0";

/// These bytes are wanted.
fn are_wanted(rt: &impl Abort, found: &[u8], wanted: &[u8]) {
    assert_eq!(rt; found, wanted);
}

/// The tables' logs and streams are those that were worked out by hand.
#[test]
fn logs_and_streams_are_as_by_hand(rt: HostRuntime) -> Result<(), Fail> {
    are_wanted(&rt, log_of(&rt, ACCOUNTS)?.as_slice(), GENESIS_LOG);
    are_wanted(&rt, stream_of(&rt, SHIPPED)?.as_slice(), SHIPPED_BYTES);
    Ok(())
}

/// The log of a row follows its stream.
pub(crate) fn follows_row<R: Threads + Wait + Clock + Sync + AllocGlobal>(
    rt: &R,
    log: Log,
    stream: Stream,
    end: &End,
    text: &[u8],
    left: Log,
) -> Result<(), Fail> {
    let log = log_of(rt, log)?;
    let stream = stream_of(rt, stream)?;
    let left = log_of(rt, left)?;
    follows(
        rt,
        log.as_slice(),
        stream.as_slice(),
        end,
        text,
        left.as_slice(),
    )
}

/// Logs that follow a stream to its end, the accounts then, and the log that is left.
const FOLLOWED: &[(Log, Stream, &[u8], Log)] = &[
    (ACCOUNTS, SHIPPED, b"lsn 9\n0 70\n1 30\n", ONE_TRANSFER),
    (
        ACCOUNTS,
        Stream {
            first: 4,
            frames: &[],
            rest: END,
        },
        b"lsn 4\n0 100\n1 0\n",
        ACCOUNTS,
    ),
    (
        ACCOUNTS,
        Stream {
            first: 4,
            frames: &[&THERE, &BACK],
            rest: END,
        },
        b"lsn 14\n0 100\n1 0\n",
        BOTH,
    ),
    (
        ONE_TRANSFER,
        NONE_FROM_9,
        b"lsn 9\n0 70\n1 30\n",
        ONE_TRANSFER,
    ),
    (ONE_TRANSFER, SHIPPED_BACK, b"lsn 14\n0 100\n1 0\n", BOTH),
    (CUT, NONE_FROM_9, b"lsn 9\n0 70\n1 30\n", CUT),
    (CUT, SHIPPED_BACK, b"lsn 14\n0 100\n1 0\n", CUT_AND_BACK),
    (UPGRADED, NONE_FROM_9, b"lsn 9\n0 70\n1 30\n", UPGRADED),
    (
        LATE,
        Stream {
            first: 4294967290,
            frames: &[&THERE],
            rest: END,
        },
        b"lsn 4294967295\n0 70\n1 30\n",
        FULL,
    ),
];

#[test]
fn follows_whole_streams(rt: HostRuntime) -> Result<(), Fail> {
    for (log, stream, text, left) in FOLLOWED {
        follows_row(&rt, *log, *stream, &End::Fine, text, *left)?;
    }
    Ok(())
}

/// Streams of which not all is followed, how that ends, and the log that is left.
const STOPPED: &[(Log, Stream, End, Log)] = &[
    // A byte behind the end.
    (
        ACCOUNTS,
        Stream {
            first: 4,
            frames: &[&THERE],
            rest: b"\0\0\0\0\0",
        },
        End::BadStream(59),
        ONE_TRANSFER,
    ),
    // A frame behind the end, where the count 0 came first.
    (
        ACCOUNTS,
        Stream {
            first: 4,
            frames: &[&[], &THERE],
            rest: END,
        },
        End::BadStream(15),
        ACCOUNTS,
    ),
    // A count of 65537, and one of 65536 whose units are cut.
    (
        ACCOUNTS,
        Stream {
            first: 4,
            frames: &[],
            rest: b"\0\x01\0\x01",
        },
        End::BadStream(11),
        ACCOUNTS,
    ),
    (
        ACCOUNTS,
        Stream {
            first: 4,
            frames: &[&THERE],
            rest: b"\0\x01\0\0",
        },
        End::BadStream(55),
        ONE_TRANSFER,
    ),
    // A frame that ends within a record.
    (
        ACCOUNTS,
        Stream {
            first: 4,
            frames: &[&WITHIN],
            rest: END,
        },
        End::BadStream(11),
        ACCOUNTS,
    ),
    // An unlawful record: the first of a frame, behind lawful ones, and in a frame behind a lawful one.
    (
        ACCOUNTS,
        Stream {
            first: 4,
            frames: &[&NO_ACCOUNT],
            rest: END,
        },
        End::StreamUnlawful(4, Why::Account),
        ACCOUNTS,
    ),
    (
        ACCOUNTS,
        Stream {
            first: 4,
            frames: &[&ENDED],
            rest: END,
        },
        End::StreamUnlawful(9, Why::Ended),
        ACCOUNTS,
    ),
    (
        ACCOUNTS,
        Stream {
            first: 4,
            frames: &[&THERE, &THERE],
            rest: END,
        },
        End::StreamUnlawful(9, Why::Ended),
        ONE_TRANSFER,
    ),
    // An unlawful record before units that are no record, in one frame and in two.
    (
        ACCOUNTS,
        Stream {
            first: 4,
            frames: &[&ENDED_AND_NONE],
            rest: END,
        },
        End::BadStream(11),
        ACCOUNTS,
    ),
    (
        ACCOUNTS,
        Stream {
            first: 4,
            frames: &[&ENDED, &[0]],
            rest: END,
        },
        End::StreamUnlawful(9, Why::Ended),
        ACCOUNTS,
    ),
    (
        ACCOUNTS,
        Stream {
            first: 4,
            frames: &[&THERE, &[0]],
            rest: END,
        },
        End::BadStream(55),
        ONE_TRANSFER,
    ),
    // A stream that begins elsewhere, whatever stands behind its head.
    (ONE_TRANSFER, SHIPPED, End::Gap(9, 4), ONE_TRANSFER),
    (UPGRADED, SHIPPED, End::Gap(9, 4), UPGRADED),
    (CUT, SHIPPED, End::Gap(9, 4), CUT),
    (ACCOUNTS, NONE_FROM_9, End::Gap(4, 9), ACCOUNTS),
    (
        ACCOUNTS,
        Stream {
            first: 5,
            frames: &[&[0]],
            rest: b"",
        },
        End::Gap(4, 5),
        ACCOUNTS,
    ),
    // Genesis records, which no log can follow.
    (
        ACCOUNTS,
        Stream {
            first: 0,
            frames: &[&[0x0102_0000_0000_0000, 100]],
            rest: END,
        },
        End::Gap(4, 0),
        ACCOUNTS,
    ),
    (
        FROM_0,
        Stream {
            first: 0,
            frames: &[&[0x0102_0000_0000_0000, 100]],
            rest: END,
        },
        End::StreamUnlawful(0, Why::Genesis),
        FROM_0,
    ),
    // LSNs that pass the last one.
    (
        LATER,
        Stream {
            first: 4294967291,
            frames: &[&THERE],
            rest: END,
        },
        End::BadStream(11),
        LATER,
    ),
    // A standby that is no lawful log.
    (UNLAWFUL, SHIPPED, End::Unlawful(4, Why::Prev), UNLAWFUL),
    (TEXT, SHIPPED, End::NotALog, TEXT),
];

#[test]
fn stops_at_the_first_fault_of_a_stream(rt: HostRuntime) -> Result<(), Fail> {
    for (log, stream, end, left) in STOPPED {
        follows_row(&rt, *log, *stream, end, b"", *left)?;
    }
    Ok(())
}

/// Where the first bad part stands of a front of the shipped transfer.
fn end_of_front(len: usize) -> &'static End {
    match len {
        0..=10 => &End::BadStream(0),
        11..=54 => &End::BadStream(11),
        _ => &End::BadStream(55),
    }
}

#[test]
fn follows_each_front_of_a_stream(rt: HostRuntime) -> Result<(), Fail> {
    let old = log_of(&rt, ACCOUNTS)?;
    let new = log_of(&rt, ONE_TRANSFER)?;
    for len in 0..SHIPPED_BYTES.len() {
        let front = SHIPPED_BYTES.split_at(len).0;
        let left = if len < 55 { &old } else { &new };
        follows(
            &rt,
            old.as_slice(),
            front,
            end_of_front(len),
            b"",
            left.as_slice(),
        )?;
    }
    Ok(())
}
