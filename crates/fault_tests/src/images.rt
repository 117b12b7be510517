//! What a crash leaves of a command, as the readers and an empty run find it.

use cli_rig::{Answer, End, Given, answer_at, answers, has_answered, has_ended};
use log_disk::OpenGate;
use lsn_space::{decimal, number};
use memory_disk::MemorySink;
use std::alloc::AllocGlobal;
use std::process::Abort;
use std::sync::Wait;
use std::test::Fail;
use std::thread::Threads;
use std::time::Clock;

/// Room for the writes and syncs of a few transfers, also where each record is sent alone.
pub(crate) const ROOM: usize = 20_000;

/// The words of a run by one worker.
pub(crate) const ALONE: &[&str] = &["aether", "run", "bank.log", "--workers=1", "--ring=1024"];

/// A log in which transaction 1 moved 30 from account 0 to account 1.
pub(crate) const ONE_TRANSFER: &[u8] =
    b"OAETHER1\0\0\0\x04\x01\x02\0\0\0\0\0\0\0\0\0\0\0\0\0\x64\x01\x02\0\x01\0\0\0\0\0\0\0\0\0\0\0\0\
    O\0\0\0\x05\x02\x02\0\0\0\0\0\x01\xff\xff\xff\xe2\0\0\0\0\x02\x02\0\x01\0\0\0\x01\0\0\0\x1e\0\0\0\0\x03\x01\0\x01\0\0\0\x01\0";

/// How many crashes are tried at each call.
pub(crate) const PICKS: u64 = 8;

/// The status of a file that is refused.
const REFUSED: u8 = 7;

/// The accounts that `demo` begins with.
const GENERATED_ACCOUNTS: u32 = 64;

/// The sum of their balances.
const GENERATED_TOTAL: u64 = 64_000_000;

/// What a crash may leave of a command.
#[derive(Clone, Copy)]
pub(crate) enum Left {
    /// No log.
    Nothing,
    /// The opened log and a prefix of what both transfers write.
    Prefix,
    /// The whole new log, or none.
    Whole,
    /// A log that begins with the generated accounts, or none.
    Generated,
    /// The opened log and a prefix of the frames of its stream, each whole.
    Frames,
}

/// The text of the accounts in a log, and the whole text of a run that ends there, for each prefix of the list of both transfers.
const PREFIXES: &[(&[u8], &[u8])] = &[
    (b"lsn 4\n0 100\n1 0\n", b"lsn 4\n0 100\n1 0\n"),
    (b"lsn 6\n0 100\n1 0\n", b"lsn 6\n0 100\n1 0\n"),
    (b"lsn 8\n0 100\n1 0\n", b"lsn 8\n0 100\n1 0\n"),
    (b"lsn 9\n0 70\n1 30\n", b"done 1 9\nlsn 9\n0 70\n1 30\n"),
    (b"lsn 11\n0 70\n1 30\n", b"done 1 9\nlsn 11\n0 70\n1 30\n"),
    (b"lsn 13\n0 70\n1 30\n", b"done 1 9\nlsn 13\n0 70\n1 30\n"),
    (
        b"lsn 14\n0 100\n1 0\n",
        b"done 1 9\ndone 2 14\nlsn 14\n0 100\n1 0\n",
    ),
];

/// The text of the accounts in the opened log with each prefix of the two frames of its stream, and the most that is told there.
const FRAMES: &[(&[u8], &[u8])] = &[
    (b"lsn 4\n0 100\n1 0\n", b""),
    (b"lsn 9\n0 70\n1 30\n", b""),
    (b"lsn 14\n0 100\n1 0\n", b"lsn 14\n0 100\n1 0\n"),
];

/// What these words read from an image. None: it is no log.
fn read_by<R: Threads + Wait + Clock + Sync + AllocGlobal + Abort>(
    rt: &R,
    words: &[&str],
    image: &[u8],
) -> Result<Option<MemorySink>, Fail> {
    let given = Given {
        input: image,
        ..Given::words(words)
    };
    let read = answer_at(rt, &given, &OpenGate)?;
    if read.report.status == REFUSED {
        has_answered(&given, &read, &End::NotALog, b"")?;
        return Ok(None);
    }
    has_ended(&given, &read, &End::Fine)?;
    let Answer { text, .. } = read;
    Ok(Some(text))
}

/// The accounts that `recover` reads from an image, which an empty run answers too. None: it is no log.
pub(crate) fn accounts_in<R: Threads + Wait + Clock + Sync + AllocGlobal + Abort>(
    rt: &R,
    image: &[u8],
) -> Result<Option<MemorySink>, Fail> {
    let Some(accounts) = read_by(rt, &["aether", "recover"], image)? else {
        return Ok(None);
    };
    let empty_run = Given {
        held: image,
        room: ROOM,
        ..Given::words(ALONE)
    };
    answers(rt, &empty_run, &End::Fine, accounts.bytes())?;
    Ok(Some(accounts))
}

/// The text begins with these bytes.
pub(crate) fn begins_with(rt: &impl Abort, text: &[u8], front: &[u8]) {
    assert!(rt;
        text.starts_with(front),
        "{text:?} doesn't begin with {front:?}"
    );
}

/// These accounts are among those of some lists, and what was told is the front of the text beside them.
fn are_among(
    rt: &impl Abort,
    lists: &[(&[u8], &[u8])],
    accounts: &[u8],
    told: &[u8],
) -> Result<(), Fail> {
    for (wanted, text) in lists {
        if accounts == *wanted {
            begins_with(rt, text, told);
            return Ok(());
        }
    }
    Err(Fail::new(format_args!("no list has {accounts:?}")))
}

/// The balance in a line of an account; 0 in any other line.
fn balance_in(line: &[u8]) -> u64 {
    let place = line.iter().position(|byte| *byte == b' ');
    let Some((account, [_, balance @ ..])) = line.split_at_checked(place.unwrap_or(0)) else {
        return 0;
    };
    if number(account, 0, u64::MAX).is_none() {
        return 0;
    }
    number(balance, 0, u64::MAX).unwrap_or(0)
}

/// The sum of all balances in the text of accounts.
fn total_of(accounts: &[u8]) -> u64 {
    let mut total = 0u64;
    for line in accounts.split(|byte| *byte == b'\n') {
        total = total.saturating_add(balance_in(line));
    }
    total
}

/// What the dump of a log of generated accounts begins with.
fn generated_front<R: AllocGlobal>(rt: &R) -> Result<Vec<u8>, Fail> {
    let mut front = Vec::new(rt.alloc());
    for account in 0..u64::from(GENERATED_ACCOUNTS) {
        front.extend_from_slice(decimal(2 * account).as_slice())?;
        front.extend_from_slice(b" genesis ")?;
        front.extend_from_slice(decimal(account).as_slice())?;
        front.extend_from_slice(b" 1000000\n")?;
    }
    Ok(front)
}

/// The image begins with the generated accounts, and has all that they had.
fn is_generated<R: Threads + Wait + Clock + Sync + AllocGlobal + Abort>(
    rt: &R,
    image: &[u8],
    accounts: &[u8],
) -> Result<(), Fail> {
    let Some(dump) = read_by(rt, &["aether", "dump"], image)? else {
        return Err(Fail::new("a log has no dump"));
    };
    begins_with(rt, dump.bytes(), generated_front(rt)?.as_slice());
    assert_eq!(rt; total_of(accounts), GENERATED_TOTAL);
    Ok(())
}

/// The accounts of an image are such as the command may leave, of which this was told.
fn are_left<R: Threads + Wait + Clock + Sync + AllocGlobal + Abort>(
    rt: &R,
    left: Left,
    image: &[u8],
    accounts: &[u8],
    told: &[u8],
    text: &[u8],
) -> Result<(), Fail> {
    match left {
        Left::Nothing => Err(Fail::new(format_args!("a log is left: {image:?}"))),
        Left::Prefix => are_among(rt, PREFIXES, accounts, told),
        Left::Frames => are_among(rt, FRAMES, accounts, told),
        Left::Whole => {
            assert_eq!(rt; accounts, text);
            Ok(())
        }
        Left::Generated => is_generated(rt, image, accounts),
    }
}

/// The image is such as the command may leave, of whose text this was told; where it must be a log it is one.
pub(crate) fn is_left<R: Threads + Wait + Clock + Sync + AllocGlobal + Abort>(
    rt: &R,
    left: Left,
    image: &[u8],
    told: &[u8],
    text: &[u8],
    must: bool,
) -> Result<(), Fail> {
    match accounts_in(rt, image)? {
        Some(accounts) => are_left(rt, left, image, accounts.bytes(), told, text),
        None if must => Err(Fail::new(format_args!("no log is left: {image:?}"))),
        None => Ok(()),
    }
}
