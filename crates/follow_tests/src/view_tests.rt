//! What `asof` and `statement` answer by the top call, row by row; words that aren't taken; and the lines of faults.

use crate::logs::{
    ACCOUNTS, BOTH, CUT, CUT_AND_BACK, FULL, Log, ONE_TRANSFER, TEXT, UNLAWFUL, UPGRADED, log_of,
};
use cli_rig::{End, GENESIS_LOG, Given, answers, is_no_command, reads, sink_of};
use cli_shared::{Report, put_fault};
use log_recovery::Why;
use std::alloc::AllocGlobal;
use std::process::Abort;
use std::sync::Wait;
use std::test::Fail;
use std::thread::Threads;
use std::time::Clock;

/// This is read from the log of a row.
fn reads_row<R: Threads + Wait + Clock + Sync + AllocGlobal>(
    rt: &R,
    log: Log,
    words: &[&str],
    text: &[u8],
) -> Result<(), Fail> {
    let log = log_of(rt, log)?;
    reads(rt, words, log.as_slice(), text)
}

/// A log, what is asked of it, and the text.
const TEXTS: &[(Log, &[&str], &[u8])] = &[
    (ONE_TRANSFER, &["aether", "asof", "0"], b"lsn 0\n"),
    (ONE_TRANSFER, &["aether", "asof", "2"], b"lsn 2\n0 100\n"),
    (
        ONE_TRANSFER,
        &["aether", "asof", "4"],
        b"lsn 4\n0 100\n1 0\n",
    ),
    (
        ONE_TRANSFER,
        &["aether", "asof", "8"],
        b"lsn 8\n0 100\n1 0\n",
    ),
    (
        CUT_AND_BACK,
        &["aether", "asof", "9"],
        b"lsn 9\n0 70\n1 30\n",
    ),
    (
        ONE_TRANSFER,
        &["aether", "statement", "0"],
        b"open 100\n9 1 -30 70\nlsn 9\n",
    ),
    (
        ONE_TRANSFER,
        &["aether", "statement", "1"],
        b"open 0\n9 1 30 30\nlsn 9\n",
    ),
    (
        BOTH,
        &["aether", "statement", "0"],
        b"open 100\n9 1 -30 70\n14 2 30 100\nlsn 14\n",
    ),
    (ACCOUNTS, &["aether", "statement", "1"], b"open 0\nlsn 4\n"),
    (CUT, &["aether", "statement", "0"], b"open 70\nlsn 9\n"),
    (
        CUT_AND_BACK,
        &["aether", "statement", "1"],
        b"open 30\n14 2 -30 0\nlsn 14\n",
    ),
    (
        UPGRADED,
        &["aether", "statement", "1"],
        b"open 0\n9 1 30 30\nlsn 9\n",
    ),
];

#[test]
fn looks_back(rt: HostRuntime) -> Result<(), Fail> {
    for (log, words, text) in TEXTS {
        reads_row(&rt, *log, words, text)?;
    }
    Ok(())
}

/// At the end of a log `asof` is `recover`.
const ENDS: &[(Log, &[&str], &[u8])] = &[
    (ACCOUNTS, &["aether", "asof", "4"], b"lsn 4\n0 100\n1 0\n"),
    (
        ONE_TRANSFER,
        &["aether", "asof", "9"],
        b"lsn 9\n0 70\n1 30\n",
    ),
    (BOTH, &["aether", "asof", "14"], b"lsn 14\n0 100\n1 0\n"),
    (CUT, &["aether", "asof", "9"], b"lsn 9\n0 70\n1 30\n"),
    (UPGRADED, &["aether", "asof", "9"], b"lsn 9\n0 70\n1 30\n"),
    (
        FULL,
        &["aether", "asof", "4294967295"],
        b"lsn 4294967295\n0 70\n1 30\n",
    ),
];

#[test]
fn recovers_at_the_end(rt: HostRuntime) -> Result<(), Fail> {
    for (log, words, text) in ENDS {
        reads_row(&rt, *log, words, text)?;
        reads_row(&rt, *log, &["aether", "recover"], text)?;
    }
    Ok(())
}

/// Nothing is read from the log of a row.
fn refuses_row<R: Threads + Wait + Clock + Sync + AllocGlobal>(
    rt: &R,
    log: Log,
    words: &[&str],
    end: &End,
) -> Result<(), Fail> {
    let log = log_of(rt, log)?;
    let given = Given {
        input: log.as_slice(),
        ..Given::words(words)
    };
    answers(rt, &given, end, b"")
}

/// A log, what is asked of it, and why that isn't answered.
const REFUSED: &[(Log, &[&str], End)] = &[
    (ONE_TRANSFER, &["aether", "asof", "5"], End::NoSuchLsn(5)),
    (ONE_TRANSFER, &["aether", "asof", "10"], End::NoSuchLsn(10)),
    (CUT, &["aether", "asof", "8"], End::NoSuchLsn(8)),
    (UPGRADED, &["aether", "asof", "2"], End::NoSuchLsn(2)),
    (BOTH, &["aether", "statement", "2"], End::NoAccount(2)),
    (BOTH, &["aether", "statement", "4095"], End::NoAccount(4095)),
    (
        UNLAWFUL,
        &["aether", "asof", "2"],
        End::Unlawful(4, Why::Prev),
    ),
    (
        UNLAWFUL,
        &["aether", "statement", "9"],
        End::Unlawful(4, Why::Prev),
    ),
    (TEXT, &["aether", "asof", "0"], End::NotALog),
    (TEXT, &["aether", "statement", "0"], End::NotALog),
];

#[test]
fn refuses_to_look_back(rt: HostRuntime) -> Result<(), Fail> {
    for (log, words, end) in REFUSED {
        refuses_row(&rt, *log, words, end)?;
    }
    Ok(())
}

/// Numbers beyond their range, and words that lack one.
const NO_COMMANDS: &[&[&str]] = &[
    &["aether", "ship"],
    &["aether", "ship", "4294967296"],
    &["aether", "ship", "04"],
    &["aether", "follow"],
    &["aether", "follow", "standby.log", "4"],
    &["aether", "asof", "4294967296"],
    &["aether", "asof", "-1"],
    &["aether", "statement", "4096"],
    &["aether", "statement", ""],
];

#[test]
fn takes_no_other_words(rt: HostRuntime) -> Result<(), Fail> {
    for words in NO_COMMANDS {
        is_no_command(&rt, words, GENESIS_LOG, GENESIS_LOG)?;
    }
    Ok(())
}

/// The line that tells this end.
fn has_line<R: AllocGlobal + Abort>(rt: &R, end: &End, line: &[u8]) -> Result<(), Fail> {
    let report = Report::of(end.detail());
    let mut out = sink_of(rt, &[])?;
    assert!(rt; put_fault(&report, &mut out).is_ok());
    assert_eq!(rt; out.bytes(), line);
    Ok(())
}

const LINES: &[(End, &[u8])] = &[
    (End::BadStream(55), b"aether: bad stream at byte 55\n"),
    (
        End::Gap(9, 4),
        b"aether: stream from lsn 4, log ends at 9\n",
    ),
    (
        End::StreamUnlawful(10, Why::Ended),
        b"aether: unlawful stream record at lsn 10: ended\n",
    ),
    (End::NoSuchLsn(5), b"aether: no record boundary at lsn 5\n"),
    (End::NoAccount(2), b"aether: no account 2\n"),
];

#[test]
fn tells_each_fault(rt: HostRuntime) -> Result<(), Fail> {
    for (end, line) in LINES {
        has_line(&rt, end, line)?;
    }
    Ok(())
}
