//! Transfers there and back between two accounts near the greatest balance, by four workers that change at each place: what the run
//! tells is what a replay comes to, of one transfer after another, in the order of their end records.

use crate::ends::{cut, number_in, told};
use cli_rig::{Answer, End, Given, answer_on, has_ended, made};
use log_disk::{Gate, Place};
use lsn_space::{MOST_BALANCE, decimal, number};
use memory_disk::{MemoryDisk, MemorySink};
use std::alloc::{AllocError, AllocGlobal, Global};
use std::process::Abort;
use std::sync::Wait;
use std::sync::atomic::{AtomicU32, Ordering};
use std::test::Fail;
use std::thread::{Threads, yield_now};
use std::time::Clock;

const COUNT: u32 = 10_000;

/// What accounts 0 and 1 begin with, as numbers and as the text of which their log is made.
const FIRST: (u64, u64) = (MOST_BALANCE - 3, MOST_BALANCE - 2);

const ACCOUNTS: &[u8] = b"4611686018427387900\n4611686018427387901\n";

/// Room for the writes and syncs, also where each record is sent alone.
const ROOM: usize = 5_000_000;

/// Room for the text.
const TEXT_ROOM: usize = 300_000;

/// At each place a thread lets others go on, for longer at some.
#[derive(Drop)]
struct Changes {
    passed: AtomicU32,
}

impl Gate for Changes {
    fn at(&self, _worker: u32, _place: Place) {
        let passed = self.passed.fetch_add(1, Ordering::SeqCst);
        for _ in 0..=passed % 5 {
            yield_now();
        }
    }
}

/// What a transfer moves, and whether from account 0 to account 1: those of odd numbers do, the others go back.
fn moves(txn: u32) -> (u64, bool) {
    (u64::from(txn / 2 % 4) + 1, txn % 2 == 1)
}

/// The script, a line for each transfer.
fn script(alloc: Global) -> Result<Vec<u8>, AllocError> {
    let mut text = Vec::new(alloc);
    for txn in 1..=COUNT {
        let (amount, is_there) = moves(txn);
        let front: &[u8] = if is_there { b"pay 0 1 " } else { b"pay 1 0 " };
        text.extend_from_slice(front)?;
        text.extend_from_slice(decimal(amount).as_slice())?;
        text.push(b'\n')?;
    }
    Ok(text)
}

/// The run of the script by four workers.
fn ran<R: Threads + Wait + Clock + Sync + AllocGlobal>(rt: &R) -> Result<Answer, Fail> {
    let log = made(rt, ACCOUNTS)?;
    let script = script(rt.alloc())?;
    let given = Given {
        input: script.as_slice(),
        ..Given::words(&["aether", "run", "bank.log", "--workers", "4"])
    };
    let Ok(mut disk) = MemoryDisk::make(rt.alloc(), log.disk.bytes(), ROOM, &[]) else {
        return Err(Fail::new("no memory"));
    };
    let Ok(mut text) = MemorySink::make(rt.alloc(), TEXT_ROOM, &[]) else {
        return Err(Fail::new("no memory"));
    };
    let gate = Changes {
        passed: AtomicU32::new(0),
    };
    let report = answer_on(rt, &given, &mut disk, &mut text, &gate)?;
    let answer = Answer { report, text, disk };
    has_ended(&given, &answer, &End::Fine)?;
    Ok(answer)
}

/// A transfer's number, where its end record ends, and whether it was made, as a line `done N END` or `over N 1 END` tells it.
type Outcome = (u32, u32, bool);

fn outcome(line: &[u8]) -> Option<Outcome> {
    if let Some((txn, end)) = told(line) {
        return Some((txn, end, true));
    }
    let (txn, rest) = cut(line.strip_prefix(b"over ")?, b' ')?;
    let end = rest.strip_prefix(b"1 ")?;
    Some((number_in(txn, 1)?, number_in(end, 1)?, false))
}

/// Both balances behind a transfer. None: its payee has no room for what it moves.
fn balances_after(balances: (u64, u64), txn: u32) -> Option<(u64, u64)> {
    let (amount, is_there) = moves(txn);
    let (payer, payee) = if is_there {
        balances
    } else {
        (balances.1, balances.0)
    };
    let payee = payee.checked_add(amount)?;
    let payer = payer.checked_sub(amount)?;
    if payee > MOST_BALANCE {
        return None;
    }
    if is_there {
        Some((payer, payee))
    } else {
        Some((payee, payer))
    }
}

/// How far a replay has come: which transfers ended, where the last of them did, how many were made, and the balances.
#[derive(Drop)]
struct Replay {
    ended: Vec<bool>,
    end: u32,
    made: u32,
    balances: (u64, u64),
}

impl Replay {
    fn new(alloc: Global) -> Result<Replay, AllocError> {
        let mut ended = Vec::new(alloc);
        for _ in 0..=COUNT {
            ended.push(false)?;
        }
        Ok(Replay {
            ended,
            end: 4,
            made: 0,
            balances: FIRST,
        })
    }

    /// The transfer ends next: it didn't before, its end record stands behind the others, and it was made if there was room.
    fn take(&mut self, rt: &impl Abort, (txn, end, is_made): Outcome) {
        let after = balances_after(self.balances, txn);
        assert!(rt;
            end > self.end && after.is_some() == is_made,
            "{txn} {end} {is_made} at {:?}",
            self.balances
        );
        let Some(ended) = self.ended.get_mut(txn as usize) else {
            panic!(rt; "there is no {txn}");
        };
        assert!(rt; !*ended, "{txn} ended twice");
        *ended = true;
        self.end = end;
        if let Some(balances) = after {
            self.balances = balances;
            self.made = self.made.saturating_add(1);
        }
    }
}

/// The last line of the end of a log, or of an account: what it begins with, and its number.
fn is_line(rt: &impl Abort, line: Option<&[u8]>, front: &[u8], wanted: u64) {
    let found = match line {
        Some(line) => line.strip_prefix(front),
        None => None,
    };
    let found = match found {
        Some(digits) => number(digits, 0, u64::MAX),
        None => None,
    };
    assert!(rt; found == Some(wanted), "{found:?}, and not {wanted}");
}

#[test]
fn four_workers_are_as_a_replay(rt: HostRuntime) -> Result<(), Fail> {
    let answer = ran(&rt)?;
    let mut replay = Replay::new(rt.alloc())?;
    let mut lines = answer.text.bytes().split(|byte| *byte == b'\n');
    for _ in 0..COUNT {
        let Some(ended) = lines.next().and_then(outcome) else {
            return Err(Fail::new("a transfer has no line"));
        };
        replay.take(&rt, ended);
    }
    is_line(&rt, lines.next(), b"lsn ", u64::from(replay.end));
    is_line(&rt, lines.next(), b"0 ", replay.balances.0);
    is_line(&rt, lines.next(), b"1 ", replay.balances.1);
    assert!(rt;
        replay.made > 0 && replay.made < COUNT,
        "{} were made",
        replay.made
    );
    Ok(())
}
