//! What `dump` answers, over a source and a sink in memory.

use crate::recover_tests::{
    CUT_TRANSFER, NO_RECORD, ONE_TRANSFER, UNFINISHED_TRANSFER, WRONG_PREDECESSOR,
};
use cli_rig::{End, Given, answers, log_of};
use std::alloc::AllocGlobal;
use std::process::Abort;
use std::sync::Wait;
use std::test::Fail;
use std::thread::Threads;
use std::time::Clock;

const DUMP: &[&str] = &["aether", "dump"];

/// The note `hi` of transaction 1, and the transfer of 30 behind it.
const NOTED_TRANSFER: &[u8] =
    b"O\0\0\0\x07\x06\x02\0\x02\0\0\0\x01hi\0\0\0\0\0\0\x02\x02\0\0\0\0\0\x01\xff\xff\xff\xe2\0\0\0\0\x02\x02\0\x01\0\0\0\x01\0\0\0\x1e\0\0\0\0\x03\x01\0\x01\0\0\0\x01\0";

/// `dump` of these bytes behind the genesis log's batch. Any use of the disk would fail.
fn dumps<R: Threads + Wait + Clock + Sync + AllocGlobal + Abort>(
    rt: &R,
    rest: &[u8],
    source_failing: &[u64],
    sink_failing: &[u64],
    end: &End,
    text: &[u8],
) -> Result<(), Fail> {
    let log = log_of(rt, rest)?;
    let given = Given {
        input: log.as_slice(),
        disk_failing: &[1],
        source_failing,
        sink_failing,
        ..Given::words(DUMP)
    };
    answers(rt, &given, end, text)
}

const DUMPED: &[(&[u8], &[u8])] = &[
    (&[0], b"0 genesis 0 100\n2 genesis 1 0\nlsn 4\n"),
    (
        ONE_TRANSFER,
        b"0 genesis 0 100\n2 genesis 1 0\n4 update 1 0 -30 0\n6 update 1 1 30 0\n8 commit 1 1\nlsn 9\n",
    ),
    (
        UNFINISHED_TRANSFER,
        b"0 genesis 0 100\n2 genesis 1 0\n4 update 7 0 -30 0\n6 update 7 1 30 0\nlsn 8\n",
    ),
    (
        WRONG_PREDECESSOR,
        b"0 genesis 0 100\n2 genesis 1 0\n4 update 1 0 -30 4\nlsn 6\n",
    ),
    (
        NOTED_TRANSFER,
        b"0 genesis 0 100\n2 genesis 1 0\n4 note 1 hi\n6 update 1 0 -30 0\n8 update 1 1 30 0\n10 commit 1 1\nlsn 11\n",
    ),
];

#[test]
fn dumps_logs(rt: HostRuntime) -> Result<(), Fail> {
    for (rest, text) in DUMPED {
        dumps(&rt, rest, &[], &[], &End::Fine, text)?;
    }
    Ok(())
}

const NOT_DUMPED: &[(&[u8], &[u64], &[u64], End)] = &[
    (CUT_TRANSFER, &[], &[], End::BadBatch(44)),
    (NO_RECORD, &[], &[], End::BadRec(4)),
    (ONE_TRANSFER, &[1], &[], End::Read),
    (ONE_TRANSFER, &[], &[1], End::Write),
];

#[test]
fn names_why_nothing_is_dumped(rt: HostRuntime) -> Result<(), Fail> {
    for (rest, source_failing, sink_failing, end) in NOT_DUMPED {
        dumps(&rt, rest, source_failing, sink_failing, end, b"")?;
    }
    answers(&rt, &Given::words(DUMP), &End::NotALog, b"")
}
