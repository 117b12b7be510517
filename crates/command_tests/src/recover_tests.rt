//! The program's answers, over a disk, a source and a sink in memory.

use cli_rig::{
    Answer, End, GENESIS_LOG, Given, NEW, answer_at, answer_on, answers, has_answered, has_left,
    is_no_command, leaves, log_of, sink_of,
};
use cli_shared::{Report, put_fault};
use log_disk::OpenGate;
use log_recovery::Why;
use lsn_space::LAST;
use std::alloc::AllocGlobal;
use std::process::Abort;
use std::sync::Wait;
use std::test::Fail;
use std::thread::Threads;
use std::time::Clock;

/// Then transaction 1 moves 30 from account 0 to account 1.
pub(crate) const ONE_TRANSFER: &[u8] =
    b"O\0\0\0\x05\x02\x02\0\0\0\0\0\x01\xff\xff\xff\xe2\0\0\0\0\x02\x02\0\x01\0\0\0\x01\0\0\0\x1e\0\0\0\0\x03\x01\0\x01\0\0\0\x01\0";

/// The same transfer as transaction 7, without an end.
pub(crate) const UNFINISHED_TRANSFER: &[u8] =
    b"O\0\0\0\x04\x02\x02\0\0\0\0\0\x07\xff\xff\xff\xe2\0\0\0\0\x02\x02\0\x01\0\0\0\x07\0\0\0\x1e\0\0\0\0\0";

/// An update that names 4 as the last commit of its account, which has none.
pub(crate) const WRONG_PREDECESSOR: &[u8] =
    b"O\0\0\0\x02\x02\x02\0\0\0\0\0\x01\xff\xff\xff\xe2\0\0\0\x04\0";

/// The front of the transfer's batch.
pub(crate) const CUT_TRANSFER: &[u8] = b"O\0\0\0\x05\x02\x02\0\0\0\0\0\x01\xff\xff\xff";

/// A batch of a unit that is no record.
pub(crate) const NO_RECORD: &[u8] = b"O\0\0\0\x01\0\0\0\0\0\0\0\0\0";

const GENESIS_TEXT: &[u8] = b"lsn 4\n0 100\n1 0\n";

pub(crate) const RECOVER: &[&str] = &["aether", "recover"];

/// `recover` of these bytes behind the genesis log's batch.
fn recovers<R: Threads + Wait + Clock + Sync + AllocGlobal + Abort>(
    rt: &R,
    rest: &[u8],
    text: &[u8],
) -> Result<(), Fail> {
    let log = log_of(rt, rest)?;
    let given = Given {
        input: log.as_slice(),
        ..Given::words(RECOVER)
    };
    answers(rt, &given, &End::Fine, text)
}

const RECOVERED: &[(&[u8], &[u8])] = &[
    (&[0], GENESIS_TEXT),
    (&[0, 0xff, 0xff], GENESIS_TEXT),
    (&[], GENESIS_TEXT),
    (&[0x4f], GENESIS_TEXT),
    (ONE_TRANSFER, b"lsn 9\n0 70\n1 30\n"),
    (UNFINISHED_TRANSFER, b"lsn 8\n0 100\n1 0\n"),
];

#[test]
fn recovers_logs(rt: HostRuntime) -> Result<(), Fail> {
    for (rest, text) in RECOVERED {
        recovers(&rt, rest, text)?;
    }
    Ok(())
}

/// `recover` of these bytes behind the genesis log's batch writes nothing, and this line tells why.
fn is_told<R: Threads + Wait + Clock + Sync + AllocGlobal + Abort>(
    rt: &R,
    rest: &[u8],
    end: &End,
    line: &[u8],
) -> Result<(), Fail> {
    let log = log_of(rt, rest)?;
    let given = Given {
        input: log.as_slice(),
        ..Given::words(RECOVER)
    };
    let answer = answer_at(rt, &given, &OpenGate)?;
    has_answered(&given, &answer, end, b"")?;
    has_line(rt, &answer.report, line)
}

/// The report's line is this one.
fn has_line<R: AllocGlobal + Abort>(rt: &R, report: &Report, line: &[u8]) -> Result<(), Fail> {
    let mut out = sink_of(rt, &[])?;
    assert!(rt; put_fault(report, &mut out).is_ok());
    assert_eq!(rt; out.bytes(), line);
    Ok(())
}

const FAULTY: &[(&[u8], End, &[u8])] = &[
    (
        CUT_TRANSFER,
        End::BadBatch(44),
        b"aether: bad batch at byte 44\n",
    ),
    (NO_RECORD, End::BadRec(4), b"aether: bad record at lsn 4\n"),
    (
        WRONG_PREDECESSOR,
        End::Unlawful(4, Why::Prev),
        b"aether: unlawful record at lsn 4: prev\n",
    ),
];

#[test]
fn names_what_is_wrong_with_a_log(rt: HostRuntime) -> Result<(), Fail> {
    for (rest, end, line) in FAULTY {
        is_told(&rt, rest, end, line)?;
    }
    Ok(())
}

/// These words over this input write nothing, and end so.
fn writes_nothing<R: Threads + Wait + Clock + Sync + AllocGlobal + Abort>(
    rt: &R,
    words: &[&str],
    input: &[u8],
    source_failing: &[u64],
    sink_failing: &[u64],
    end: &End,
) -> Result<(), Fail> {
    let given = Given {
        input,
        source_failing,
        sink_failing,
        ..Given::words(words)
    };
    answers(rt, &given, end, b"")
}

const FAULTS: &[(&[&str], &[u8], &[u64], &[u64], End)] = &[
    (RECOVER, &[], &[], &[], End::NotALog),
    (RECOVER, GENESIS_LOG, &[1], &[], End::Read),
    (RECOVER, GENESIS_LOG, &[], &[1], End::Write),
    (&["move", "log"], GENESIS_LOG, &[], &[], End::Usage),
    (&["recover"], GENESIS_LOG, &[], &[], End::Usage),
    (&[], GENESIS_LOG, &[], &[], End::Usage),
];

#[test]
fn names_each_fault_and_writes_nothing(rt: HostRuntime) -> Result<(), Fail> {
    for (words, input, source_failing, sink_failing, end) in FAULTS {
        writes_nothing(&rt, words, input, source_failing, sink_failing, end)?;
    }
    Ok(())
}

#[test]
fn makes_a_log_once(rt: HostRuntime) -> Result<(), Fail> {
    let given = Given {
        input: b"100\n0\n",
        ..Given::words(NEW)
    };
    let mut answer = answer_at(&rt, &given, &OpenGate)?;
    has_answered(&given, &answer, &End::Fine, GENESIS_TEXT)?;
    has_left(&given, &answer, GENESIS_LOG)?;

    let again = Given {
        input: b"7\n",
        ..given
    };
    answer.report = answer_on(&rt, &again, &mut answer.disk, &mut answer.text, &OpenGate)?;
    has_answered(&again, &answer, &End::Exists, GENESIS_TEXT)?;
    has_left(&again, &answer, GENESIS_LOG)?;
    assert!(rt; answer.report.status == 10);
    Ok(())
}

/// `recover` of the log that was left writes what `new` wrote.
fn recovers_made<R: Threads + Wait + Clock + Sync + AllocGlobal + Abort>(
    rt: &R,
    made: &Answer,
) -> Result<(), Fail> {
    let given = Given {
        input: made.disk.bytes(),
        ..Given::words(RECOVER)
    };
    answers(rt, &given, &End::Fine, made.text.bytes())
}

#[test]
fn recovers_what_new_made(rt: HostRuntime) -> Result<(), Fail> {
    let given = Given {
        held: b"an old text",
        input: b"4611686018427387903\n0\n5",
        ..Given::words(NEW)
    };
    let made = answer_at(&rt, &given, &OpenGate)?;
    let text = b"lsn 6\n0 4611686018427387903\n1 0\n2 5\n";
    has_answered(&given, &made, &End::Fine, text)?;
    recovers_made(&rt, &made)
}

/// `new` ends so, writes nothing, and leaves the disk as it was.
fn makes_none<R: Threads + Wait + Clock + Sync + AllocGlobal + Abort>(
    rt: &R,
    held: &[u8],
    input: &[u8],
    disk_failing: &[u64],
    source_failing: &[u64],
    end: &End,
) -> Result<(), Fail> {
    let given = Given {
        held,
        input,
        disk_failing,
        source_failing,
        ..Given::words(NEW)
    };
    leaves(rt, &given, end, b"", held)
}

const NOT_MADE: &[(&[u8], &[u8], &[u64], &[u64], End)] = &[
    (b"", b"100\n0\n", &[1], &[], End::Disk),
    (b"", b"100\n0\n", &[2], &[], End::Disk),
    (b"", b"100\n0\n", &[4], &[], End::Disk),
    (b"O\0", b"100\n0\n", &[], &[], End::Exists),
    (b"O\0", b"no balances", &[], &[1], End::Exists),
    (b"", b"100\n0\n", &[], &[1], End::Read),
    (b"", b"", &[], &[], End::Script(1)),
    (b"old", b"100\n\n", &[], &[], End::Script(2)),
    (b"", b"100\r\n", &[], &[], End::Script(1)),
];

#[test]
fn makes_no_log_at_a_fault(rt: HostRuntime) -> Result<(), Fail> {
    for (held, input, disk_failing, source_failing, end) in NOT_MADE {
        makes_none(&rt, held, input, disk_failing, source_failing, end)?;
    }
    Ok(())
}

#[test]
fn leaves_the_log_where_its_text_cannot_be_written(rt: HostRuntime) -> Result<(), Fail> {
    let given = Given {
        input: b"100\n0\n",
        sink_failing: &[1],
        ..Given::words(NEW)
    };
    leaves(&rt, &given, &End::Write, b"", GENESIS_LOG)
}

const HELP: &[&[&str]] = &[
    &["aether"],
    &["aether", "new"],
    &["aether", "new", "a.log", "b.log"],
    &["aether", "--help"],
    &["aether", "-h"],
    &["aether", "help"],
    &["aether", "--version"],
];

#[test]
fn refuses_help_and_leaves_the_disk(rt: HostRuntime) -> Result<(), Fail> {
    for words in HELP {
        is_no_command(&rt, words, b"", b"100\n")?;
    }
    Ok(())
}

/// The report of this end has this status and this line.
fn is_reported<R: AllocGlobal + Abort>(
    rt: &R,
    end: &End,
    status: u8,
    line: &[u8],
) -> Result<(), Fail> {
    let report = Report::of(end.detail());
    assert_eq!(rt; report.status, status);
    has_line(rt, &report, line)
}

const REPORTS: &[(End, u8, &[u8])] = &[
    (End::Fine, 0, b""),
    (End::NoMemory, 1, b"aether: out of memory\n"),
    (End::Script(4097), 3, b"aether: line 4097 refused\n"),
    (End::Read, 4, b"aether: read failed\n"),
    (End::Write, 5, b"aether: write failed\n"),
    (End::Disk, 6, b"aether: disk failed\n"),
    (End::NotALog, 7, b"aether: not a log\n"),
    (End::BadSnapshot, 7, b"aether: bad snapshot\n"),
    (
        End::LogEnd(LAST, 26),
        8,
        b"aether: log end: tail 4294967295, total 26\n",
    ),
    (
        End::TxnEnd(4294967296, 0),
        9,
        b"aether: transaction numbers end: first 4294967296, count 0\n",
    ),
    (End::Exists, 10, b"aether: log exists\n"),
];

#[test]
fn writes_the_line_of_each_report(rt: HostRuntime) -> Result<(), Fail> {
    for (end, status, line) in REPORTS {
        is_reported(&rt, end, *status, line)?;
    }
    Ok(())
}
