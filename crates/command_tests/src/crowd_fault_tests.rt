//! What stands in a log, and what was told, where a run of many transfers is broken off.

use crate::ends::{are_a_front, ends_in, ends_of, is_front_of, recovers};
use crate::scripts::{accounts_after, run_ones};
use cli_rig::{Answer, End, Given, has_answered, has_ended};
use log_disk::OpenGate;
use std::alloc::AllocGlobal;
use std::process::Abort;
use std::sync::Wait;
use std::test::Fail;
use std::thread::Threads;
use std::time::Clock;

/// More transfers than the shortest ring has room for at once.
const MANY: u32 = 1000;

const ALONE: &[&str] = &["aether", "run", "bank.log", "--workers=1", "--ring=1024"];

const FOUR: &[&str] = &["aether", "run", "bank.log", "--workers=4", "--ring=1024"];

/// What was told stands in this log, and its accounts are those that its transfers leave.
fn keeps_what_was_told<R: Threads + Wait + Clock + Sync + AllocGlobal + Abort>(
    rt: &R,
    text: &[u8],
    log: &[u8],
) -> Result<(), Fail> {
    let told = ends_in(rt.alloc(), text)?;
    let ends = ends_of(rt, log)?;
    is_front_of(rt, told.as_slice(), ends.as_slice());
    let accounts = accounts_after(rt, ends.as_slice().len())?;
    recovers(rt, log, accounts.as_slice())
}

/// The output takes one write. What one worker ended are the script's first transfers, in their order.
#[test]
fn one_worker_ends_a_front_of_the_script(rt: HostRuntime) -> Result<(), Fail> {
    let given = Given {
        sink_failing: &[2],
        ..Given::words(ALONE)
    };
    let answer = run_ones(&rt, given, MANY, &OpenGate)?;
    has_ended(&given, &answer, &End::Write)?;
    let ends = ends_of(&rt, answer.disk.bytes())?;
    are_a_front(&rt, ends.as_slice(), MANY as usize);
    keeps_what_was_told(&rt, answer.text.bytes(), answer.disk.bytes())
}

#[test]
fn four_workers_and_a_closed_output(rt: HostRuntime) -> Result<(), Fail> {
    let given = Given {
        sink_failing: &[1],
        ..Given::words(FOUR)
    };
    let answer = run_ones(&rt, given, MANY, &OpenGate)?;
    has_answered(&given, &answer, &End::Write, b"")?;
    keeps_what_was_told(&rt, b"", answer.disk.bytes())
}

/// The fourth sync is that of the second flush's batch: the eleventh call, behind five that open the log and the first flush's
/// four.
const FOURTH_SYNC: &[u64] = &[11];

/// The fourth sync fails, and this crash keeps what was told.
fn crashes<R: Threads + Wait + Clock + Sync + AllocGlobal + Abort>(
    rt: &R,
    pick: u64,
) -> Result<(), Fail> {
    let given = Given {
        disk_failing: FOURTH_SYNC,
        ..Given::words(FOUR)
    };
    let answer = run_ones(rt, given, MANY, &OpenGate)?;
    has_ended(&given, &answer, &End::Disk)?;
    let Answer { text, disk, .. } = answer;
    let left = disk.crash(pick);
    keeps_what_was_told(rt, text.bytes(), left.bytes())
}

const PICKS: &[u64] = &[0, 1, 2, 77, 12_345];

#[test]
fn four_workers_and_a_failing_disk(rt: HostRuntime) -> Result<(), Fail> {
    for pick in PICKS {
        crashes(&rt, *pick)?;
    }
    Ok(())
}
