//! What `cut` and `upgrade` answer, and what the other commands make of logs of the second format.

use crate::recover_tests::{ONE_TRANSFER, RECOVER, UNFINISHED_TRANSFER};
use crate::run_tests::GREATEST_TRANSACTION;
use cli_rig::{
    Answer, End, GENESIS_LOG, Given, answer_at, answers, has_answered, has_left, leaves, log_of,
    reads,
};
use log_disk::OpenGate;
use std::alloc::AllocGlobal;
use std::process::Abort;
use std::sync::Wait;
use std::test::Fail;
use std::thread::Threads;
use std::time::Clock;

const CUT: &[&str] = &["aether", "cut", "short.log"];

const UPGRADE: &[&str] = &["aether", "upgrade", "new.log"];

const ALONE: &[&str] = &["aether", "run", "short.log", "--workers", "1"];

const TEXT: &[u8] = b"lsn 9\n0 70\n1 30\n";

/// What `cut` leaves of one transfer: the list begins at 9, transaction 1 was the last, and both accounts have a Commit that ends there.
const CUT_LOG: &[u8] =
    b"OAETHER2\0\0\0\x09\0\0\0\x01\0\0\0\x02\0\0\0\0\0\0\0\x46\0\0\0\x09\0\0\0\0\0\0\0\x1e\0\0\0\x09\0";

/// What stands before the records of that transfer, once the Genesis records are gone into it.
const UPGRADED_HEAD: &[u8] =
    b"OAETHER2\0\0\0\x04\0\0\0\0\0\0\0\x02\0\0\0\0\0\0\0\x64\0\0\0\0\0\0\0\0\0\0\0\0\0\0\0\0";

/// What `cut` leaves of the same transfer without an end, as transaction 7.
const CUT_UNFINISHED: &[u8] =
    b"OAETHER2\0\0\0\x08\0\0\0\x07\0\0\0\x02\0\0\0\0\0\0\0\x64\0\0\0\0\0\0\0\0\0\0\0\0\0\0\0\0\0";

/// What it leaves where the greatest transaction number is taken.
const CUT_GREATEST: &[u8] =
    b"OAETHER2\0\0\0\x05\xff\xff\xff\xff\0\0\0\x02\0\0\0\0\0\0\0\x64\0\0\0\0\0\0\0\0\0\0\0\0\0\0\0\0\0";

/// Two accounts with 5 and 0 before a list that begins at 0.
const FROM_0: &[u8] =
    b"OAETHER2\0\0\0\0\0\0\0\0\0\0\0\x02\0\0\0\0\0\0\0\x05\0\0\0\0\0\0\0\0\0\0\0\0\0\0\0\0\0";

/// A list that begins 5 units before the last LSN.
const NEAR_THE_END: &[u8] =
    b"OAETHER2\xff\xff\xff\xfa\0\0\0\0\0\0\0\x02\0\0\0\0\0\0\0\x64\0\0\0\0\0\0\0\0\0\0\0\0\0\0\0\0\0";

/// The command over this input leaves this log, and writes the text of its accounts.
fn makes<R: Threads + Wait + Clock + Sync + AllocGlobal + Abort>(
    rt: &R,
    words: &[&str],
    input: &[u8],
    text: &[u8],
    left: &[u8],
) -> Result<(), Fail> {
    let given = Given {
        input,
        ..Given::words(words)
    };
    leaves(rt, &given, &End::Fine, text, left)
}

#[test]
fn cuts_a_log(rt: HostRuntime) -> Result<(), Fail> {
    let log = log_of(&rt, ONE_TRANSFER)?;
    makes(&rt, CUT, log.as_slice(), TEXT, CUT_LOG)?;
    // What was cut is cut again to the same.
    makes(&rt, CUT, CUT_LOG, TEXT, CUT_LOG)?;
    reads(&rt, RECOVER, CUT_LOG, TEXT)
}

#[test]
fn cuts_what_has_no_end(rt: HostRuntime) -> Result<(), Fail> {
    let log = log_of(&rt, UNFINISHED_TRANSFER)?;
    let text = b"lsn 8\n0 100\n1 0\n";
    makes(&rt, CUT, log.as_slice(), text, CUT_UNFINISHED)
}

#[test]
fn keeps_the_greatest_transaction_number(rt: HostRuntime) -> Result<(), Fail> {
    let log = log_of(&rt, GREATEST_TRANSACTION)?;
    let text = b"lsn 5\n0 100\n1 0\n";
    makes(&rt, CUT, log.as_slice(), text, CUT_GREATEST)
}

/// The run of the script over the log ends so, and writes this.
fn runs<R: Threads + Wait + Clock + Sync + AllocGlobal + Abort>(
    rt: &R,
    held: &[u8],
    script: &[u8],
    end: &End,
    text: &[u8],
) -> Result<Answer, Fail> {
    let given = Given {
        held,
        input: script,
        ..Given::words(ALONE)
    };
    let ran = answer_at(rt, &given, &OpenGate)?;
    has_answered(&given, &ran, end, text)?;
    Ok(ran)
}

const RUNS: &[(&[u8], &[u8], End, &[u8])] = &[
    (
        CUT_UNFINISHED,
        b"pay 0 1 10\n",
        End::Fine,
        b"done 8 13\nlsn 13\n0 90\n1 10\n",
    ),
    (
        FROM_0,
        b"pay 0 1 5\n",
        End::Fine,
        b"done 1 5\nlsn 5\n0 0\n1 5\n",
    ),
    (CUT_GREATEST, b"", End::TxnEnd(4294967296, 0), b""),
    (
        NEAR_THE_END,
        b"pay 0 1 30\npay 1 0 30\n",
        End::LogEnd(0xffff_ffff, 2),
        b"done 1 4294967295\n",
    ),
];

#[test]
fn runs_on_cut_logs(rt: HostRuntime) -> Result<(), Fail> {
    for (held, script, end, text) in RUNS {
        runs(&rt, held, script, end, text)?;
    }
    let text = b"done 2 14\nlsn 14\n0 100\n1 0\n";
    let ran = runs(&rt, CUT_LOG, b"pay 1 0 30\n", &End::Fine, text)?;
    reads(&rt, RECOVER, ran.disk.bytes(), b"lsn 14\n0 100\n1 0\n")
}

/// These bytes are a log of the second format whose head is bad.
fn is_bad<R: Threads + Wait + Clock + Sync + AllocGlobal + Abort>(
    rt: &R,
    words: &[&str],
    log: &[u8],
) -> Result<(), Fail> {
    let given = Given {
        input: log,
        ..Given::words(words)
    };
    answers(rt, &given, &End::BadSnapshot, b"")
}

#[test]
fn refuses_a_bad_snapshot(rt: HostRuntime) -> Result<(), Fail> {
    let mut late = Vec::from_slice(rt.alloc(), CUT_LOG)?;
    late.as_mut_slice()[31] = 10;
    for words in [RECOVER, CUT, UPGRADE] {
        is_bad(&rt, words, late.as_slice())?;
        is_bad(&rt, words, CUT_LOG.split_at(43).0)?;
    }
    reads(&rt, RECOVER, CUT_LOG.split_at(44).0, TEXT)
}

#[test]
fn upgrades_a_log(rt: HostRuntime) -> Result<(), Fail> {
    let log = log_of(&rt, ONE_TRANSFER)?;
    let mut upgraded = Vec::from_slice(rt.alloc(), UPGRADED_HEAD)?;
    upgraded.extend_from_slice(ONE_TRANSFER)?;
    makes(&rt, UPGRADE, log.as_slice(), TEXT, upgraded.as_slice())?;
    // What was upgraded, and what was cut, is copied.
    makes(&rt, UPGRADE, upgraded.as_slice(), TEXT, upgraded.as_slice())?;
    makes(&rt, UPGRADE, CUT_LOG, TEXT, CUT_LOG)?;
    reads(
        &rt,
        &["aether", "dump"],
        upgraded.as_slice(),
        b"snapshot 4 0\naccount 0 100 0\naccount 1 0 0\n4 update 1 0 -30 0\n6 update 1 1 30 0\n8 commit 1 1\nlsn 9\n",
    )
}

const NOT_MADE: &[(&[u8], &[u8], &[u64], &[u64], End)] = &[
    (GENESIS_LOG, GENESIS_LOG, &[], &[], End::Exists),
    (b"", b"text", &[], &[], End::NotALog),
    (b"", GENESIS_LOG, &[1], &[], End::Disk),
    (b"", GENESIS_LOG, &[], &[1], End::Read),
];

/// Nothing is made, and the disk stays as it was.
fn makes_nothing<R: Threads + Wait + Clock + Sync + AllocGlobal + Abort>(
    rt: &R,
    words: &[&str],
    (held, input, disk_failing, source_failing): (&[u8], &[u8], &[u64], &[u64]),
    end: &End,
) -> Result<(), Fail> {
    let given = Given {
        held,
        input,
        disk_failing,
        source_failing,
        ..Given::words(words)
    };
    leaves(rt, &given, end, b"", held)
}

#[test]
fn names_why_no_log_is_made(rt: HostRuntime) -> Result<(), Fail> {
    for (held, input, disk_failing, source_failing, end) in NOT_MADE {
        let given = (*held, *input, *disk_failing, *source_failing);
        makes_nothing(&rt, CUT, given, end)?;
        makes_nothing(&rt, UPGRADE, given, end)?;
    }
    Ok(())
}

/// The command over the log of one transfer, with a fault at this call of the disk: it makes the whole log, or ends so and leaves
/// that log or a disk on which the same call then makes it.
fn makes_it_again<R: Threads + Wait + Clock + Sync + AllocGlobal + Abort>(
    rt: &R,
    words: &[&str],
    call: u64,
    left: &[u8],
) -> Result<(), Fail> {
    let log = log_of(rt, ONE_TRANSFER)?;
    let failing = Given {
        input: log.as_slice(),
        disk_failing: &[call],
        ..Given::words(words)
    };
    let answer = answer_at(rt, &failing, &OpenGate)?;
    if answer.report.status == 0 {
        return has_left(&failing, &answer, left);
    }
    has_answered(&failing, &answer, &End::Disk, b"")?;
    let held = answer.disk.bytes();
    // Where the last sync failed the whole log is there.
    if held == left {
        return Ok(());
    }
    let again = Given {
        held,
        input: log.as_slice(),
        ..Given::words(words)
    };
    leaves(rt, &again, &End::Fine, TEXT, left)
}

#[test]
fn makes_it_again_after_a_fault(rt: HostRuntime) -> Result<(), Fail> {
    let mut upgraded = Vec::from_slice(rt.alloc(), UPGRADED_HEAD)?;
    upgraded.extend_from_slice(ONE_TRANSFER)?;
    for call in 1..=12 {
        makes_it_again(&rt, CUT, call, CUT_LOG)?;
        makes_it_again(&rt, UPGRADE, call, upgraded.as_slice())?;
    }
    Ok(())
}
