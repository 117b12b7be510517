//! Scripts of many lines, and runs of them.

use crate::ends::{ends_in, ends_of, have_all_ended, is_front_of};
use cli_rig::{Answer, End, Given, answer_at, has_ended, made};
use log_disk::Gate;
use lsn_space::decimal;
use std::alloc::AllocGlobal;
use std::process::Abort;
use std::sync::Wait;
use std::test::Fail;
use std::thread::Threads;
use std::time::Clock;

/// What account 0 begins with; account 1 begins with nothing.
const RICH: u32 = 2000;

/// Room for the writes and syncs of a thousand transfers, also where each record is sent alone.
const ROOM: usize = 500_000;

/// So many lines, each this one.
pub(crate) fn lines<R: AllocGlobal>(rt: &R, line: &[u8], count: u32) -> Result<Vec<u8>, Fail> {
    let mut script = Vec::new(rt.alloc());
    for _ in 0..count {
        script.extend_from_slice(line)?;
    }
    Ok(script)
}

/// The run of so many transfers of 1 from account 0 to account 1, where these calls of the disk and of the sink fail.
pub(crate) fn run_ones<R: Threads + Wait + Clock + Sync + AllocGlobal + Abort, G: Gate + Sync>(
    rt: &R,
    given: Given,
    count: u32,
    gate: &G,
) -> Result<Answer, Fail> {
    let log = made(rt, b"2000\n0\n")?;
    let script = lines(rt, b"pay 0 1 1\n", count)?;
    let given = Given {
        held: log.disk.bytes(),
        room: ROOM,
        input: script.as_slice(),
        ..given
    };
    answer_at(rt, &given, gate)
}

/// The accounts once so many of these transfers have ended, as a text ends with them.
pub(crate) fn accounts_after<R: AllocGlobal>(rt: &R, count: usize) -> Result<Vec<u8>, Fail> {
    let mut text = Vec::from_slice(rt.alloc(), b"\n0 ")?;
    let left = (RICH as usize).saturating_sub(count);
    text.extend_from_slice(decimal(left as u64).as_slice())?;
    text.extend_from_slice(b"\n1 ")?;
    text.extend_from_slice(decimal(count as u64).as_slice())?;
    text.push(b'\n')?;
    Ok(text)
}

/// The run ended well; it told so many transfers, each once, as the log has them, and its text ends so.
pub(crate) fn has_done_all<R: Threads + Wait + Clock + Sync + AllocGlobal + Abort>(
    rt: &R,
    given: &Given,
    answer: &Answer,
    count: u32,
    accounts: &[u8],
) -> Result<(), Fail> {
    has_ended(given, answer, &End::Fine)?;
    let text = answer.text.bytes();
    assert!(rt; text.ends_with(accounts), "{text:?}, and not {accounts:?}");
    let told = ends_in(rt.alloc(), text)?;
    have_all_ended(rt, told.as_slice(), count);
    let log = ends_of(rt, answer.disk.bytes())?;
    is_front_of(rt, told.as_slice(), log.as_slice());
    Ok(())
}
