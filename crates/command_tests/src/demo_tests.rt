//! What `demo` answers, over a disk, a source and a sink in memory. The sums of 5000 transfers were reckoned apart from the program.

use cli_rig::{End, Given, answer_at, answer_on, answers};
use cli_shared::{Detail, Report};
use log_disk::OpenGate;
use std::alloc::AllocGlobal;
use std::process::Abort;
use std::sync::Wait;
use std::test::Fail;
use std::thread::Threads;
use std::time::Clock;

/// Room for the writes and syncs of 5000 transfers, also where each record is sent alone.
const ROOM: usize = 1_500_000;

const THREE: &[u8] = b"transfers 3\ndone 3\nrefused 0\nlsn 143\ntotal 64000000\nmix 2080000080\n";

const MANY: &[u8] =
    b"transfers 5000\ndone 5000\nrefused 0\nlsn 25128\ntotal 64000000\nmix 2079991273\n";

const NONE: &[u8] = b"transfers 0\ndone 0\nrefused 0\nlsn 128\ntotal 64000000\nmix 2080000000\n";

const SUMS: &[(&[&str], &[u8])] = &[
    (&["aether", "demo", "log", "0", "7"], NONE),
    (&["aether", "demo", "log", "3", "7"], THREE),
    (&["aether", "demo", "--workers=1", "log", "3", "7"], THREE),
    (
        &["aether", "demo", "log", "5000", "7", "--ring", "1024"],
        MANY,
    ),
    (
        &["aether", "demo", "log", "5000", "7", "--workers", "1"],
        MANY,
    ),
    (
        &[
            "aether",
            "demo",
            "log",
            "5000",
            "7",
            "--ring=1024",
            "--workers=1",
        ],
        MANY,
    ),
    (
        &[
            "aether",
            "demo",
            "log",
            "5000",
            "7",
            "--ring=1024",
            "--workers=4",
        ],
        MANY,
    ),
    (
        &[
            "aether",
            "demo",
            "log",
            "5000",
            "7",
            "--ring=1024",
            "--workers=16",
        ],
        MANY,
    ),
    (
        &[
            "aether", "demo", "log", "5000", "7", "--ring", "1024", "--slots", "0",
        ],
        MANY,
    ),
    (
        &[
            "aether", "demo", "log", "5000", "7", "--ring", "1024", "--slots", "1",
        ],
        MANY,
    ),
    (
        &[
            "aether", "demo", "log", "5000", "7", "--ring", "1024", "--slots", "16",
        ],
        MANY,
    ),
    (
        &[
            "aether",
            "demo",
            "log",
            "5000",
            "7",
            "--ring=1024",
            "--slots=1",
            "--workers=1",
        ],
        MANY,
    ),
];

/// A demo writes this sum; any read of the input would fail.
fn shows<R: Threads + Wait + Clock + Sync + AllocGlobal + Abort>(
    rt: &R,
    words: &[&str],
    text: &[u8],
) -> Result<(), Fail> {
    let given = Given {
        room: ROOM,
        input: b"unread",
        source_failing: &[1],
        ..Given::words(words)
    };
    answers(rt, &given, &End::Fine, text)
}

#[test]
fn sums_up_transfers(rt: HostRuntime) -> Result<(), Fail> {
    for (words, text) in SUMS {
        shows(&rt, words, text)?;
    }
    Ok(())
}

const RECORDS: &[u8] =
    b"\n126 genesis 63 1000000\n128 update 1 23 -1 0\n130 update 1 33 1 0\n132 commit 1 1\nlsn 133\n";

/// The dump of this log ends with these lines.
fn dumps_at_the_end<R: Threads + Wait + Clock + Sync + AllocGlobal + Abort>(
    rt: &R,
    log: &[u8],
    lines: &[u8],
) -> Result<(), Fail> {
    let given = Given {
        input: log,
        ..Given::words(&["aether", "dump"])
    };
    let answer = answer_at(rt, &given, &OpenGate)?;
    assert!(rt; answer.text.bytes().ends_with(lines));
    Ok(())
}

#[test]
fn leaves_a_log(rt: HostRuntime) -> Result<(), Fail> {
    let given = Given {
        room: ROOM,
        ..Given::words(&["aether", "demo", "log", "1", "7", "--workers", "1"])
    };
    let mut answer = answer_at(&rt, &given, &OpenGate)?;
    dumps_at_the_end(&rt, answer.disk.bytes(), RECORDS)?;
    answer.report = answer_on(&rt, &given, &mut answer.disk, &mut answer.text, &OpenGate)?;
    assert_eq!(rt; answer.report, Report::of(Detail::Exists));
    Ok(())
}

/// A demo of three transfers over a disk of these bytes writes nothing, and ends so.
fn shows_nothing<R: Threads + Wait + Clock + Sync + AllocGlobal + Abort>(
    rt: &R,
    held: &[u8],
    disk_failing: &[u64],
    sink_failing: &[u64],
    end: &End,
) -> Result<(), Fail> {
    let given = Given {
        held,
        room: ROOM,
        disk_failing,
        sink_failing,
        ..Given::words(&["aether", "demo", "log", "3", "7", "--workers", "1"])
    };
    answers(rt, &given, end, b"")
}

const FAULTS: &[(&[u8], &[u64], &[u64], End)] = &[
    (b"", &[1], &[], End::Disk),
    (b"", &[2], &[], End::Disk),
    (b"", &[4], &[], End::Disk),
    (b"", &[12], &[], End::Disk),
    (b"O\0", &[], &[], End::Exists),
    (b"", &[], &[1], End::Write),
];

#[test]
fn names_each_fault(rt: HostRuntime) -> Result<(), Fail> {
    for (held, disk_failing, sink_failing, end) in FAULTS {
        shows_nothing(&rt, held, disk_failing, sink_failing, end)?;
    }
    Ok(())
}
