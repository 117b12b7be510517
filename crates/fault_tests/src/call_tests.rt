//! Each command that writes a log, where one of its calls fails: of the disk, of the output, of the input.

use crate::failed::{Command, Failing, Part, given_of, so_many_calls_fail, some_calls_fail};
use crate::images::{ALONE, Left, ONE_TRANSFER, PICKS, accounts_in};
use cli_rig::{Answer, End, GENESIS_LOG, NEW, answer_at, has_answered};
use log_disk::OpenGate;
use std::alloc::AllocGlobal;
use std::process::Abort;
use std::sync::Wait;
use std::test::Fail;
use std::thread::Threads;
use std::time::Clock;

/// The calls of the disk that make a log in one batch: it is attached and synced, its length is asked, and its first byte read; the first
/// gate is read, and written closed, then the batch and then the gate, open, each with its sync.
const MAKING: u64 = 11;

/// Those of a log of one batch behind a head, which is written before it.
const MAKING_IN_PIECES: u64 = 12;

/// Both transfers, there and back.
const RUN: Command = Command {
    words: ALONE,
    held: GENESIS_LOG,
    input: b"pay 0 1 30\npay 1 0 30\n",
    text: b"done 1 9\ndone 2 14\nlsn 14\n0 100\n1 0\n",
    left: Left::Prefix,
    making: 0,
};

/// Three generated transfers over a new log.
const DEMO: Command = Command {
    words: &[
        "aether",
        "demo",
        "bank.log",
        "3",
        "7",
        "--workers=1",
        "--ring=1024",
    ],
    held: b"",
    input: b"unread",
    text: b"transfers 3\ndone 3\nrefused 0\nlsn 143\ntotal 64000000\nmix 2080000080\n",
    left: Left::Generated,
    making: MAKING,
};

/// The commands that make a log and no transfer.
const MAKERS: &[Command] = &[
    Command {
        words: NEW,
        held: b"",
        input: b"100\n0\n",
        text: b"lsn 4\n0 100\n1 0\n",
        left: Left::Whole,
        making: MAKING,
    },
    Command {
        words: &["aether", "cut", "short.log"],
        held: b"",
        input: ONE_TRANSFER,
        text: b"lsn 9\n0 70\n1 30\n",
        left: Left::Whole,
        making: MAKING,
    },
    Command {
        words: &["aether", "upgrade", "new.log"],
        held: b"",
        input: ONE_TRANSFER,
        text: b"lsn 9\n0 70\n1 30\n",
        left: Left::Whole,
        making: MAKING_IN_PIECES,
    },
];

#[test]
fn each_call_of_the_disk_fails_in_run(rt: HostRuntime) -> Result<(), Fail> {
    some_calls_fail(&rt, &RUN, Part::Disk)
}

#[test]
fn each_call_of_the_disk_fails_in_demo(rt: HostRuntime) -> Result<(), Fail> {
    some_calls_fail(&rt, &DEMO, Part::Disk)
}

#[test]
fn each_call_of_the_disk_fails_where_a_log_is_made(rt: HostRuntime) -> Result<(), Fail> {
    for command in MAKERS {
        so_many_calls_fail(&rt, command, Part::Disk, command.making)?;
    }
    Ok(())
}

/// Each call of that part fails in turn, in every command that reads input.
fn each_fails<R: Threads + Wait + Clock + Sync + AllocGlobal + Abort>(
    rt: &R,
    part: Part,
) -> Result<(), Fail> {
    some_calls_fail(rt, &RUN, part)?;
    for command in MAKERS {
        some_calls_fail(rt, command, part)?;
    }
    Ok(())
}

#[test]
fn each_call_of_the_output_fails(rt: HostRuntime) -> Result<(), Fail> {
    each_fails(&rt, Part::Output)?;
    some_calls_fail(&rt, &DEMO, Part::Output)
}

#[test]
fn each_call_of_the_input_fails(rt: HostRuntime) -> Result<(), Fail> {
    each_fails(&rt, Part::Input)?;
    so_many_calls_fail(&rt, &DEMO, Part::Input, 0)
}

/// The accounts of each list that ends at 9, 11, 13 or 14.
const FLUSHED: &[&[u8]] = &[
    b"lsn 9\n0 70\n1 30\n",
    b"lsn 11\n0 70\n1 30\n",
    b"lsn 13\n0 70\n1 30\n",
    b"lsn 14\n0 100\n1 0\n",
];

/// The output fails at once, and then there is this crash: nothing is told, and what was flushed before the first line is left.
fn leaves_what_was_flushed<R: Threads + Wait + Clock + Sync + AllocGlobal + Abort>(
    rt: &R,
    pick: u64,
) -> Result<(), Fail> {
    let failing = Failing {
        part: Part::Output,
        calls: &[1],
        first: 1,
    };
    let given = given_of(&RUN, failing);
    let answer = answer_at(rt, &given, &OpenGate)?;
    has_answered(&given, &answer, &End::Write, b"")?;
    let Answer { disk, .. } = answer;
    let Some(accounts) = accounts_in(rt, disk.crash(pick).bytes())? else {
        return Err(Fail::new("no log is left"));
    };
    let found = accounts.bytes();
    let is_there = FLUSHED.iter().any(|wanted| found == *wanted);
    assert!(rt; is_there, "{found:?}");
    Ok(())
}

#[test]
fn an_output_that_fails_at_once(rt: HostRuntime) -> Result<(), Fail> {
    for pick in 0..PICKS {
        leaves_what_was_flushed(&rt, pick)?;
    }
    Ok(())
}
