//! What `run` answers, over a disk, a source and a sink in memory.

use crate::recover_tests::UNFINISHED_TRANSFER;
use cli_rig::{
    Answer, End, GENESIS_LOG, Given, answer_at, answers, has_answered, is_no_command, leaves,
    log_of, made, reads, run_on,
};
use log_disk::OpenGate;
use std::alloc::AllocGlobal;
use std::process::Abort;
use std::sync::Wait;
use std::test::Fail;
use std::thread::Threads;
use std::time::Clock;

const ALONE: &[&str] = &["aether", "run", "bank.log", "--workers", "1"];

const BOTH: &[&str] = &["aether", "run", "bank.log", "--workers", "2"];

const ALONE_WAITING: &[&str] = &["aether", "run", "bank.log", "--workers", "1", "--wait"];

/// A transfer under the greatest number, refused.
pub(crate) const GREATEST_TRANSACTION: &[u8] = b"O\0\0\0\x01\x04\x01\0\x01\xff\xff\xff\xff\0";

/// The run of the script over the log ends well, and writes this.
fn runs<R: Threads + Wait + Clock + Sync + AllocGlobal + Abort>(
    rt: &R,
    words: &[&str],
    log: &[u8],
    script: &[u8],
    text: &[u8],
) -> Result<Answer, Fail> {
    let given = Given {
        held: log,
        input: script,
        ..Given::words(words)
    };
    let answer = answer_at(rt, &given, &OpenGate)?;
    has_answered(&given, &answer, &End::Fine, text)?;
    Ok(answer)
}

/// The run of the script over the genesis log writes this, and `recover` reads these accounts from what it leaves.
fn recovers_ran<R: Threads + Wait + Clock + Sync + AllocGlobal + Abort>(
    rt: &R,
    words: &[&str],
    script: &[u8],
    text: &[u8],
    accounts: &[u8],
) -> Result<(), Fail> {
    let ran = runs(rt, words, GENESIS_LOG, script, text)?;
    reads(rt, &["aether", "recover"], ran.disk.bytes(), accounts)
}

const ONE_TRANSFER_WORDS: &[&[&str]] = &[
    ALONE,
    BOTH,
    ALONE_WAITING,
    &["aether", "run", "bank.log", "--wait"],
];

#[test]
fn one_transfer(rt: HostRuntime) -> Result<(), Fail> {
    for words in ONE_TRANSFER_WORDS {
        recovers_ran(
            &rt,
            words,
            b"pay 0 1 30\n",
            b"done 1 9\nlsn 9\n0 70\n1 30\n",
            b"lsn 9\n0 70\n1 30\n",
        )?;
    }
    Ok(())
}

const THERE_AND_BACK: &[u8] =
    b"0 genesis 0 100\n2 genesis 1 0\n4 update 1 0 -30 0\n6 update 1 1 30 0\n8 commit 1 1\n\
    9 update 2 1 -30 9\n11 update 2 0 30 9\n13 commit 2 1\nlsn 14\n";

#[test]
fn transfer_there_and_back(rt: HostRuntime) -> Result<(), Fail> {
    let script = b"pay 0 1 30\npay 1 0 30\n";
    let text = b"done 1 9\ndone 2 14\nlsn 14\n0 100\n1 0\n";
    let ran = runs(&rt, ALONE, GENESIS_LOG, script, text)?;
    let log = ran.disk.bytes();
    reads(&rt, &["aether", "recover"], log, b"lsn 14\n0 100\n1 0\n")?;
    reads(&rt, &["aether", "dump"], log, THERE_AND_BACK)
}

const OUTCOMES: &[(&[u8], &[u8], &[u8])] = &[
    (
        b"pay 0 1 500\n",
        b"short 1 1 5\nlsn 5\n0 100\n1 0\n",
        b"lsn 5\n0 100\n1 0\n",
    ),
    (
        b"pay 0 1 60 1 0 200\n",
        b"short 1 2 9\nlsn 9\n0 100\n1 0\n",
        b"lsn 9\n0 100\n1 0\n",
    ),
    (
        b"pay 0 1 60 1 0 20\n",
        b"done 1 13\nlsn 13\n0 60\n1 40\n",
        b"lsn 13\n0 60\n1 40\n",
    ),
    (
        b"\npay 0 1 30\n\n\n",
        b"done 1 9\nlsn 9\n0 70\n1 30\n",
        b"lsn 9\n0 70\n1 30\n",
    ),
    (
        b"pay 0 1 30 : rent\n",
        b"done 1 11\nlsn 11\n0 70\n1 30\n",
        b"lsn 11\n0 70\n1 30\n",
    ),
];

#[test]
fn each_outcome_of_a_transfer(rt: HostRuntime) -> Result<(), Fail> {
    for (script, text, accounts) in OUTCOMES {
        recovers_ran(&rt, ALONE, script, text, accounts)?;
    }
    Ok(())
}

#[test]
fn over_at_the_greatest_balance(rt: HostRuntime) -> Result<(), Fail> {
    let mut answer = made(&rt, b"100\n4611686018427387903\n")?;
    let given = Given {
        input: b"pay 0 1 1\n",
        ..Given::words(ALONE)
    };
    run_on(&rt, &given, &mut answer, &OpenGate)?;
    let text = b"over 1 1 5\nlsn 5\n0 100\n1 4611686018427387903\n";
    has_answered(&given, &answer, &End::Fine, text)?;
    Ok(())
}

/// An empty script, over the genesis log's batch and these bytes behind it.
fn closes_the_gate<R: Threads + Wait + Clock + Sync + AllocGlobal + Abort>(
    rt: &R,
    words: &[&str],
    rest: &[u8],
) -> Result<(), Fail> {
    let log = log_of(rt, rest)?;
    let given = Given {
        held: log.as_slice(),
        ..Given::words(words)
    };
    let text = b"lsn 4\n0 100\n1 0\n";
    leaves(rt, &given, &End::Fine, text, GENESIS_LOG)
}

const GATES: &[&[u8]] = &[b"\0", b"", b"O"];

#[test]
fn an_empty_script_changes_nothing_but_a_missing_gate(rt: HostRuntime) -> Result<(), Fail> {
    for rest in GATES {
        closes_the_gate(&rt, ALONE, rest)?;
        closes_the_gate(&rt, BOTH, rest)?;
    }
    Ok(())
}

#[test]
fn goes_on_behind_an_unfinished_transfer(rt: HostRuntime) -> Result<(), Fail> {
    let log = log_of(&rt, UNFINISHED_TRANSFER)?;
    let text = b"done 8 13\nlsn 13\n0 90\n1 10\n";
    runs(&rt, ALONE, log.as_slice(), b"pay 0 1 10\n", text)?;
    Ok(())
}

/// A transfer of 30 with a note of so many bytes.
fn noted<R: AllocGlobal>(rt: &R, length: u32) -> Result<Vec<u8>, Fail> {
    let mut script = Vec::from_slice(rt.alloc(), b"pay 0 1 30 : ")?;
    for _ in 0..length {
        script.push(b'x')?;
    }
    Ok(script)
}

/// The run of a transfer with a note of so many bytes, over the genesis log.
fn runs_noted<R: Threads + Wait + Clock + Sync + AllocGlobal + Abort>(
    rt: &R,
    words: &[&str],
    length: u32,
    end: &End,
    text: &[u8],
) -> Result<(), Fail> {
    let script = noted(rt, length)?;
    let given = Given {
        held: GENESIS_LOG,
        input: script.as_slice(),
        ..Given::words(words)
    };
    answers(rt, &given, end, text)
}

/// Runs with the shortest ring, and without slots, with one, and with as many as there may be.
const SLOTS: &[&[&str]] = &[
    &["aether", "run", "log", "--ring", "1024", "--slots", "0"],
    &["aether", "run", "log", "--ring", "1024", "--slots", "1"],
    &["aether", "run", "log", "--ring", "1024", "--slots", "16"],
];

#[test]
fn the_longest_note(rt: HostRuntime) -> Result<(), Fail> {
    let text = b"done 1 35\nlsn 35\n0 70\n1 30\n";
    for words in SLOTS {
        runs_noted(&rt, words, 200, &End::Fine, text)?;
        runs_noted(&rt, words, 201, &End::Script(1), b"")?;
    }
    runs_noted(&rt, ALONE, 200, &End::Fine, text)
}

/// A run over the genesis log's batch and these bytes behind it writes nothing, leaves them as they are, and ends so.
fn refuses<R: Threads + Wait + Clock + Sync + AllocGlobal + Abort>(
    rt: &R,
    rest: &[u8],
    script: &[u8],
    disk_failing: &[u64],
    source_failing: &[u64],
    end: &End,
) -> Result<(), Fail> {
    let log = log_of(rt, rest)?;
    let given = Given {
        held: log.as_slice(),
        input: script,
        disk_failing,
        source_failing,
        ..Given::words(ALONE)
    };
    leaves(rt, &given, end, b"", given.held)
}

const REFUSED: &[(&[u8], &[u8], &[u64], &[u64], End)] = &[
    (&[0], b"pay 0 1 30\npay 1 1 5\n", &[], &[], End::Script(2)),
    (&[0], b"pay 0 2 5\n", &[], &[], End::Script(1)),
    (&[0], b"pay 0 1 30\n", &[], &[1], End::Read),
    (&[0], b"pay 0 1 30\n", &[1], &[], End::Disk),
    (&[0], b"pay 0 1 30\n", &[2], &[], End::Disk),
    (b"O\0\0", b"", &[], &[1], End::BadBatch(44)),
    (
        GREATEST_TRANSACTION,
        b"",
        &[],
        &[],
        End::TxnEnd(4294967296, 0),
    ),
    (
        GREATEST_TRANSACTION,
        b"pay 0 1 1\n",
        &[],
        &[],
        End::TxnEnd(4294967296, 1),
    ),
];

#[test]
fn refuses_and_leaves_the_log(rt: HostRuntime) -> Result<(), Fail> {
    for (rest, script, disk_failing, source_failing, end) in REFUSED {
        refuses(&rt, rest, script, disk_failing, source_failing, end)?;
    }
    Ok(())
}

/// A run over these bytes reads no script, and leaves them as they are.
fn is_no_log<R: Threads + Wait + Clock + Sync + AllocGlobal + Abort>(
    rt: &R,
    bytes: &[u8],
) -> Result<(), Fail> {
    let given = Given {
        held: bytes,
        input: b"pay 0 1 1\n",
        source_failing: &[1],
        ..Given::words(BOTH)
    };
    leaves(rt, &given, &End::NotALog, b"", bytes)
}

const NO_LOGS: &[&[u8]] = &[b"", b"text", b"O", b"OAETHER3"];

#[test]
fn refuses_what_is_no_log(rt: HostRuntime) -> Result<(), Fail> {
    for bytes in NO_LOGS {
        is_no_log(&rt, bytes)?;
    }
    Ok(())
}

const OTHER_WORDS: &[&[&str]] = &[
    &["aether", "run"],
    &["aether", "run", "log", "--ring", "1000"],
    &["aether", "move", "log"],
];

#[test]
fn refuses_other_words_of_run(rt: HostRuntime) -> Result<(), Fail> {
    for words in OTHER_WORDS {
        is_no_command(&rt, words, GENESIS_LOG, b"pay 0 1 1\n")?;
    }
    Ok(())
}

/// The run of a transfer at a fault ends so, having written this.
fn runs_into<R: Threads + Wait + Clock + Sync + AllocGlobal + Abort>(
    rt: &R,
    disk_failing: &[u64],
    sink_failing: &[u64],
    end: &End,
    text: &[u8],
) -> Result<(), Fail> {
    let given = Given {
        held: GENESIS_LOG,
        input: b"pay 0 1 30\n",
        disk_failing,
        sink_failing,
        ..Given::words(ALONE)
    };
    answers(rt, &given, end, text)
}

/// The sixth call of the disk is the first write of a batch, behind attach, sync, length, a read of the file and one of the gate
/// at the tail.
const FIRST_WRITE: &[u64] = &[6];

const FAULTS: &[(&[u64], &[u64], End, &[u8])] = &[
    (FIRST_WRITE, &[], End::Disk, b""),
    (&[], &[1], End::Write, b""),
    (&[], &[2], End::Write, b"done 1 9\n"),
];

#[test]
fn faults_out_of_the_run(rt: HostRuntime) -> Result<(), Fail> {
    for (disk_failing, sink_failing, end, text) in FAULTS {
        runs_into(&rt, disk_failing, sink_failing, end, text)?;
    }
    Ok(())
}
