//! `follow`, and the commands that only read a log, `ship`, `asof` and `statement`, where one of their calls fails.

use crate::failed::{Command, Part, so_many_calls_fail};
use crate::images::{Left, ONE_TRANSFER, PICKS, accounts_in};
use cli_rig::{Answer, End, GENESIS_LOG, Given, answer_at, has_answered, log_of};
use log_disk::OpenGate;
use std::alloc::AllocGlobal;
use std::process::Abort;
use std::sync::Wait;
use std::test::Fail;
use std::thread::Threads;
use std::time::Clock;

/// The stream from 4 on of a transfer of 30 from account 0 to account 1, and of one back, in a frame each.
const THERE_AND_BACK: &[u8] = b"AESHIP1\0\0\0\x04\0\0\0\x05\
    \x02\x02\0\0\0\0\0\x01\xff\xff\xff\xe2\0\0\0\0\x02\x02\0\x01\0\0\0\x01\0\0\0\x1e\0\0\0\0\x03\x01\0\x01\0\0\0\x01\
    \0\0\0\x05\
    \x02\x02\0\x01\0\0\0\x02\xff\xff\xff\xe2\0\0\0\x09\x02\x02\0\0\0\0\0\x02\0\0\0\x1e\0\0\0\x09\x03\x01\0\x01\0\0\0\x02\
    \0\0\0\0";

/// The same log as the genesis log, whose last gate no byte stands for.
const NO_GATE: &[u8] =
    b"OAETHER1\0\0\0\x04\x01\x02\0\0\0\0\0\0\0\0\0\0\0\0\0\x64\x01\x02\0\x01\0\0\0\0\0\0\0\0\0\0\0\0";

/// A log that follows, and how many calls of the disk that takes: the log is attached and synced, its length is asked, it is read, and its last
/// gate again; where that is missing it is written and synced. Each frame takes four.
const FOLLOWERS: &[(&[u8], u64)] = &[(GENESIS_LOG, 13), (NO_GATE, 15)];

/// This log follows both transfers.
fn follower(held: &'static [u8]) -> Command {
    Command {
        words: &["aether", "follow", "standby.log"],
        held,
        input: THERE_AND_BACK,
        text: b"lsn 14\n0 100\n1 0\n",
        left: Left::Frames,
        making: 0,
    }
}

#[test]
fn each_call_of_the_disk_fails_in_follow(rt: HostRuntime) -> Result<(), Fail> {
    for (held, calls) in FOLLOWERS {
        so_many_calls_fail(&rt, &follower(held), Part::Disk, *calls)?;
    }
    Ok(())
}

/// Of the 103 bytes of the stream 7 come at a time, and the last call finds none.
#[test]
fn each_call_of_the_input_fails_in_follow(rt: HostRuntime) -> Result<(), Fail> {
    for (held, _) in FOLLOWERS {
        so_many_calls_fail(&rt, &follower(held), Part::Input, 16)?;
    }
    Ok(())
}

/// A call of the input, and the accounts where it fails: those after the frames that had come whole before, which end at bytes 55 and 99.
const CAME: &[(u64, &[u8])] = &[
    (8, b"lsn 4\n0 100\n1 0\n"),
    (9, b"lsn 9\n0 70\n1 30\n"),
    (15, b"lsn 9\n0 70\n1 30\n"),
    (16, b"lsn 14\n0 100\n1 0\n"),
];

/// The input fails at this call: the accounts after any crash are these.
fn follows_what_came<R: Threads + Wait + Clock + Sync + AllocGlobal + Abort>(
    rt: &R,
    call: u64,
    wanted: &[u8],
    pick: u64,
) -> Result<(), Fail> {
    let given = Given {
        held: GENESIS_LOG,
        input: THERE_AND_BACK,
        source_failing: &[call],
        ..Given::words(&["aether", "follow", "standby.log"])
    };
    let answer = answer_at(rt, &given, &OpenGate)?;
    has_answered(&given, &answer, &End::Read, b"")?;
    let Answer { disk, .. } = answer;
    let Some(accounts) = accounts_in(rt, disk.crash(pick).bytes())? else {
        return Err(Fail::new("no log is left"));
    };
    assert_eq!(rt; accounts.bytes(), wanted, "call {call}");
    Ok(())
}

#[test]
fn the_frames_that_came_are_followed(rt: HostRuntime) -> Result<(), Fail> {
    for (call, wanted) in CAME {
        for pick in 0..PICKS {
            follows_what_came(&rt, *call, wanted, pick)?;
        }
    }
    Ok(())
}

#[test]
fn the_output_fails_in_follow(rt: HostRuntime) -> Result<(), Fail> {
    for (held, _) in FOLLOWERS {
        so_many_calls_fail(&rt, &follower(held), Part::Output, 1)?;
    }
    Ok(())
}

/// What reads the log of one transfer, and what it writes.
const READERS: &[(&[&str], &[u8])] = &[
    (
        &["aether", "ship", "4"],
        b"AESHIP1\0\0\0\x04\0\0\0\x05\
        \x02\x02\0\0\0\0\0\x01\xff\xff\xff\xe2\0\0\0\0\x02\x02\0\x01\0\0\0\x01\0\0\0\x1e\0\0\0\0\x03\x01\0\x01\0\0\0\x01\
        \0\0\0\0",
    ),
    (&["aether", "asof", "9"], b"lsn 9\n0 70\n1 30\n"),
    (&["aether", "asof", "0"], b"lsn 0\n"),
    (&["aether", "statement", "1"], b"open 0\n9 1 30 30\nlsn 9\n"),
];

/// These words read the log of one transfer.
fn reader(words: &'static [&'static str], text: &'static [u8]) -> Command {
    Command {
        words,
        held: b"",
        input: ONE_TRANSFER,
        text,
        left: Left::Nothing,
        making: 0,
    }
}

/// The disk isn't called, of the 90 bytes of the log 7 come at a time, and what is written is written at once.
#[test]
fn each_call_fails_where_a_log_is_read(rt: HostRuntime) -> Result<(), Fail> {
    for (words, text) in READERS {
        so_many_calls_fail(&rt, &reader(words, text), Part::Disk, 0)?;
        so_many_calls_fail(&rt, &reader(words, text), Part::Input, 14)?;
        so_many_calls_fail(&rt, &reader(words, text), Part::Output, 1)?;
    }
    Ok(())
}

/// A note of transaction 1.
const NOTE: &[u8] = b"\x06\x02\0\x02\0\0\0\x01hi\0\0\0\0\0\0";

/// A log of a batch of 4200 notes behind the accounts.
fn noted_log<R: AllocGlobal>(rt: &R) -> Result<Vec<u8>, Fail> {
    let mut log = log_of(rt, b"O\0\0\x20\xd0")?;
    for _ in 0..4200 {
        log.extend_from_slice(NOTE)?;
    }
    log.push(0)?;
    Ok(log)
}

/// Adds the first so many notes of a frame of 256, behind its count.
fn add_notes(front: &mut Vec<u8>, notes: u32) -> Result<(), Fail> {
    front.extend_from_slice(b"\0\0\x02\0")?;
    for _ in 0..notes {
        front.extend_from_slice(NOTE)?;
    }
    Ok(())
}

/// The front of the stream of those notes that is written at once: a block of 64 KB has no room for the next unit.
fn noted_front<R: AllocGlobal>(rt: &R) -> Result<Vec<u8>, Fail> {
    let mut front = Vec::from_slice(rt.alloc(), b"AESHIP1\0\0\0\x04")?;
    for _ in 0..15 {
        add_notes(&mut front, 256)?;
    }
    add_notes(&mut front, 251)?;
    Ok(front)
}

/// The output fails at its second call, of which these numbers are the first.
fn ships_a_part<R: Threads + Wait + Clock + Sync + AllocGlobal + Abort>(
    rt: &R,
    sink_failing: &[u64],
) -> Result<(), Fail> {
    let log = noted_log(rt)?;
    let given = Given {
        input: log.as_slice(),
        sink_failing,
        ..Given::words(&["aether", "ship", "4"])
    };
    let answer = answer_at(rt, &given, &OpenGate)?;
    let front = noted_front(rt)?;
    has_answered(&given, &answer, &End::Write, front.as_slice())
}

#[test]
fn a_part_of_a_stream_is_written(rt: HostRuntime) -> Result<(), Fail> {
    ships_a_part(&rt, &[2])?;
    ships_a_part(&rt, &[2, 3, 4])
}
