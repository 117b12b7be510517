//! Which transfers ended, and where, as the text of a run tells it and as a dump shows it.

use cli_rig::{Answer, End, Given, answer_at, has_ended};
use log_disk::OpenGate;
use lsn_space::number;
use std::alloc::{AllocGlobal, Global};
use std::process::Abort;
use std::sync::Wait;
use std::test::Fail;
use std::thread::Threads;
use std::time::Clock;

/// The number of a transfer, and where its end record ends.
pub(crate) type Ended = (u32, u32);

/// What stands before the first such byte, and what behind it.
pub(crate) fn cut(text: &[u8], at: u8) -> Option<(&[u8], &[u8])> {
    let place = text.iter().position(|byte| *byte == at)?;
    let (front, rest) = text.split_at_checked(place)?;
    match rest {
        [_, behind @ ..] => Some((front, behind)),
        [] => None,
    }
}

/// The transaction number or the LSN, at least this, of which this is the text.
pub(crate) fn number_in(text: &[u8], least: u32) -> Option<u32> {
    let n = number(text, u64::from(least), u64::from(u32::MAX))?;
    Some(n as u32)
}

/// What a line `done N END` of a run tells.
pub(crate) fn told(line: &[u8]) -> Option<Ended> {
    let (txn, end) = cut(line.strip_prefix(b"done ")?, b' ')?;
    Some((number_in(txn, 1)?, number_in(end, 1)?))
}

/// What a line `LSN commit N LEGS` of a dump shows.
fn shown(line: &[u8]) -> Option<Ended> {
    let (lsn, rest) = cut(line, b' ')?;
    let (txn, _) = cut(rest.strip_prefix(b"commit ")?, b' ')?;
    let end = number_in(lsn, 0)?.checked_add(1)?;
    Some((number_in(txn, 1)?, end))
}

/// What the lines of a text tell or show, in their order.
pub(crate) fn ends_in(alloc: Global, text: &[u8]) -> Result<Vec<Ended>, Fail> {
    let mut ends = Vec::new(alloc);
    for line in text.split(|byte| *byte == b'\n') {
        if let Some(ended) = told(line).or(shown(line)) {
            ends.push(ended)?;
        }
    }
    Ok(ends)
}

/// What is read by these words from a log.
fn read_by<R: Threads + Wait + Clock + Sync + AllocGlobal + Abort>(
    rt: &R,
    words: &[&str],
    log: &[u8],
) -> Result<Answer, Fail> {
    let given = Given {
        input: log,
        ..Given::words(words)
    };
    let read = answer_at(rt, &given, &OpenGate)?;
    has_ended(&given, &read, &End::Fine)?;
    Ok(read)
}

/// The transfers that ended in a log, in its order.
pub(crate) fn ends_of<R: Threads + Wait + Clock + Sync + AllocGlobal + Abort>(
    rt: &R,
    log: &[u8],
) -> Result<Vec<Ended>, Fail> {
    let dump = read_by(rt, &["aether", "dump"], log)?;
    ends_in(rt.alloc(), dump.text.bytes())
}

/// `recover` of a log writes a text that ends so.
pub(crate) fn recovers<R: Threads + Wait + Clock + Sync + AllocGlobal + Abort>(
    rt: &R,
    log: &[u8],
    accounts: &[u8],
) -> Result<(), Fail> {
    let read = read_by(rt, &["aether", "recover"], log)?;
    let text = read.text.bytes();
    assert!(rt; text.ends_with(accounts), "{text:?}, and not {accounts:?}");
    Ok(())
}

/// The text is one of these.
pub(crate) fn is_one_of(rt: &impl Abort, text: &[u8], wanted: &[&[u8]]) {
    let is_there = wanted.iter().any(|want| text == *want);
    assert!(rt; is_there, "{text:?}");
}

/// The log has the end of each transfer that was told, in the order in which they were told, and others only behind them.
pub(crate) fn is_front_of(rt: &impl Abort, told: &[Ended], log: &[Ended]) {
    assert!(rt; log.starts_with(told), "{told:?} were told of {log:?}");
}

/// The transfers from 1 up to this one ended, each once.
pub(crate) fn have_all_ended(rt: &impl Abort, ends: &[Ended], count: u32) {
    let found = ends.len();
    assert!(rt; found == count as usize, "{found} ended, and not {count}");
    for wanted in 1..=count {
        let is_there = ends.iter().any(|ended| ended.0 == wanted);
        assert!(rt; is_there, "{wanted} did not end");
    }
}

/// The transfers ended in the order of their numbers, from 1 on, and there are some, but not so many.
pub(crate) fn are_a_front(rt: &impl Abort, ends: &[Ended], count: usize) {
    let found = ends.len();
    assert!(rt; found > 0 && found < count, "{found} ended");
    let mut wanted: u32 = 0;
    for (txn, _) in ends {
        wanted = wanted.saturating_add(1);
        assert!(rt; *txn == wanted, "{txn} ended in the place of {wanted}");
    }
}
