//! What `run` answers with few workers and with many.

use crate::ends::is_one_of;
use crate::gates::Takes;
use crate::scripts::{accounts_after, has_done_all, lines, run_ones};
use cli_rig::{
    End, GENESIS_LOG, Given, answer_at, answers, has_answered, has_ended, is_no_command, leaves,
};
use log_disk::OpenGate;
use std::alloc::AllocGlobal;
use std::process::Abort;
use std::sync::Wait;
use std::test::Fail;
use std::thread::Threads;
use std::time::Clock;

/// Two transfers that can't both be done.
const TWO: &[u8] = b"pay 0 1 30\npay 0 1 80\n";

/// What they tell, in the script's order and in the other.
const EITHER: &[&[u8]] = &[
    b"done 1 9\nshort 2 1 10\nlsn 10\n0 70\n1 30\n",
    b"done 2 9\nshort 1 1 10\nlsn 10\n0 20\n1 80\n",
];

/// The run of both transfers over the genesis log tells one of these.
fn tells_one_of<R: Threads + Wait + Clock + Sync + AllocGlobal + Abort>(
    rt: &R,
    words: &[&str],
    wanted: &[&[u8]],
) -> Result<(), Fail> {
    let given = Given {
        held: GENESIS_LOG,
        input: TWO,
        ..Given::words(words)
    };
    let answer = answer_at(rt, &given, &OpenGate)?;
    has_ended(&given, &answer, &End::Fine)?;
    is_one_of(rt, answer.text.bytes(), wanted);
    Ok(())
}

const CROWDS: &[&[&str]] = &[
    &["aether", "run", "bank.log", "--workers", "2"],
    &["aether", "run", "bank.log", "--workers", "3"],
    &["aether", "run", "bank.log", "--workers", "16"],
    &["aether", "run", "bank.log", "--workers", "16", "--wait"],
];

/// With 16 workers, 14 find nothing to do.
#[test]
fn two_orders_of_two_transfers(rt: HostRuntime) -> Result<(), Fail> {
    let (alone, _) = EITHER.split_at(1);
    tells_one_of(&rt, &["aether", "run", "bank.log", "--workers", "1"], alone)?;
    for words in CROWDS {
        tells_one_of(&rt, words, EITHER)?;
    }
    Ok(())
}

#[test]
fn sixteen_workers_find_no_transfer(rt: HostRuntime) -> Result<(), Fail> {
    let given = Given {
        held: GENESIS_LOG,
        ..Given::words(&["aether", "run", "bank.log", "--workers", "16"])
    };
    leaves(&rt, &given, &End::Fine, b"lsn 4\n0 100\n1 0\n", GENESIS_LOG)
}

/// A transfer with the longest note.
const NOTED: &[u8] = b"pay 0 1 1 : \
    xxxxxxxxxxxxxxxxxxxxxxxxxxxxxxxxxxxxxxxxxxxxxxxxxxxxxxxxxxxxxxxxxxxxxxxxxxxxxxxxxxxxxxxxxxxxxxxxxxxx\
    xxxxxxxxxxxxxxxxxxxxxxxxxxxxxxxxxxxxxxxxxxxxxxxxxxxxxxxxxxxxxxxxxxxxxxxxxxxxxxxxxxxxxxxxxxxxxxxxxxxx\n";

const CROWDED: &[&str] = &[
    "aether",
    "run",
    "bank.log",
    "--workers",
    "16",
    "--ring",
    "1024",
    "--slots",
    "16",
];

#[test]
fn sixteen_workers_with_the_longest_notes(rt: HostRuntime) -> Result<(), Fail> {
    let script = lines(&rt, NOTED, 64)?;
    let given = Given {
        held: GENESIS_LOG,
        room: 100_000,
        input: script.as_slice(),
        ..Given::words(CROWDED)
    };
    let answer = answer_at(&rt, &given, &OpenGate)?;
    has_done_all(&rt, &given, &answer, 64, b"\nlsn 1988\n0 36\n1 64\n")
}

/// A run of so many transfers ends well, and tells all of them.
fn does_all<R: Threads + Wait + Clock + Sync + AllocGlobal + Abort>(
    rt: &R,
    words: &[&str],
    count: u32,
) -> Result<(), Fail> {
    let given = Given::words(words);
    let answer = run_ones(rt, given, count, &OpenGate)?;
    let accounts = accounts_after(rt, count as usize)?;
    has_done_all(rt, &given, &answer, count, accounts.as_slice())
}

const WAITING: &[&str] = &["aether", "run", "bank.log", "--workers", "4", "--wait"];

#[test]
fn many_workers_share_a_script(rt: HostRuntime) -> Result<(), Fail> {
    does_all(&rt, CROWDED, 1000)?;
    does_all(&rt, WAITING, 40)
}

/// The first write of a batch: the sixth call of the disk, behind attach, sync, length, a read of the file and one of the gate at
/// the tail.
const FIRST_WRITE: &[u64] = &[6];

/// The first write of a batch fails, so nothing becomes durable: each worker that waits takes one transfer at most.
fn takes_at_most<R: Threads + Wait + Clock + Sync + AllocGlobal + Abort>(
    rt: &R,
    words: &[&str],
    most: u32,
) -> Result<(), Fail> {
    let gate = Takes::new();
    let given = Given {
        disk_failing: FIRST_WRITE,
        ..Given::words(words)
    };
    let answer = run_ones(rt, given, 20, &gate)?;
    has_answered(&given, &answer, &End::Disk, b"")?;
    gate.are_at_most(rt, most);
    Ok(())
}

#[test]
fn waits_for_the_disk_where_asked(rt: HostRuntime) -> Result<(), Fail> {
    takes_at_most(
        &rt,
        &["aether", "run", "bank.log", "--workers=1", "--wait"],
        1,
    )?;
    takes_at_most(&rt, WAITING, 4)
}

const NO_NUMBERS: &[&[&str]] = &[
    &["aether", "run", "log", "--workers", "0"],
    &["aether", "run", "log", "--workers", "17"],
    &["aether", "run", "log", "--workers", "01"],
    &["aether", "run", "log", "--workers", "+2"],
    &["aether", "run", "log", "--workers", "-1"],
    &["aether", "run", "log", "--workers", ""],
    &["aether", "run", "log", "--workers="],
    &["aether", "run", "log", "--workers", "two"],
    &["aether", "run", "log", "--workers", "4294967297"],
    &["aether", "run", "log", "--workers"],
    &["aether", "run", "log", "--workers", "2", "--workers", "2"],
    &["aether", "demo", "log", "3", "7", "--workers", "0"],
    &["aether", "demo", "log", "3", "7", "--workers", "17"],
    &["aether", "demo", "log", "3", "7", "--workers", "01"],
    &["aether", "demo", "log", "3", "7", "--workers", "+2"],
    &["aether", "demo", "log", "3", "7", "--workers", ""],
    &["aether", "demo", "log", "3", "7", "--workers", "two"],
    &[
        "aether",
        "demo",
        "log",
        "3",
        "7",
        "--workers=4",
        "--workers=4",
    ],
];

#[test]
fn refuses_other_numbers_of_workers(rt: HostRuntime) -> Result<(), Fail> {
    for words in NO_NUMBERS {
        is_no_command(&rt, words, GENESIS_LOG, b"pay 0 1 1\n")?;
    }
    Ok(())
}
