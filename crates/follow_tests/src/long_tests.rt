//! Streams of more than one frame, and of the longest.

use crate::calls::{follows, ships};
use crate::logs::{ACCOUNTS, log_of, push_units};
use cli_rig::{End, Given, leaves};
use std::alloc::{AllocError, AllocGlobal};
use std::test::Fail;

/// A transfer that was refused, by transaction 1.
const SHORT: u64 = 0x0401_0001_0000_0001;

/// A note of transaction 2.
const NOTE: [u64; 2] = [0x0602_0002_0000_0002, 0x6869_0000_0000_0000];

/// So many notes.
fn notes<R: AllocGlobal>(rt: &R, count: usize) -> Result<Vec<u64>, AllocError> {
    let mut units = Vec::new(rt.alloc());
    for _ in 0..count {
        units.extend_from_slice(&NOTE)?;
    }
    Ok(units)
}

/// A refused transfer, and so many notes.
fn short_and_notes<R: AllocGlobal>(rt: &R, count: usize) -> Result<Vec<u64>, AllocError> {
    let mut units = Vec::from_slice(rt.alloc(), &[SHORT])?;
    units.extend_from_slice(notes(rt, count)?.as_slice())?;
    Ok(units)
}

/// The accounts, and batches behind them.
fn log_with<R: AllocGlobal>(rt: &R, batches: &[&[u64]]) -> Result<Vec<u8>, AllocError> {
    let mut bytes = log_of(rt, ACCOUNTS)?;
    bytes.truncate(44);
    for units in batches {
        bytes.push(b'O')?;
        push_units(&mut bytes, units)?;
    }
    bytes.push(0)?;
    Ok(bytes)
}

/// The stream of these frames behind the accounts.
fn stream_with<R: AllocGlobal>(rt: &R, frames: &[&[u64]]) -> Result<Vec<u8>, AllocError> {
    let mut bytes = Vec::from_slice(rt.alloc(), b"AESHIP1\0\0\0\x04")?;
    for units in frames {
        push_units(&mut bytes, units)?;
    }
    bytes.extend_from_slice(&[0; 4])?;
    Ok(bytes)
}

/// Of a batch of 601 units the first frame has 511, since no record is split.
#[test]
fn a_frame_has_as_many_records_as_fit(rt: HostRuntime) -> Result<(), Fail> {
    let all = short_and_notes(&rt, 300)?;
    let first = short_and_notes(&rt, 255)?;
    let second = notes(&rt, 45)?;
    let primary = log_with(&rt, &[all.as_slice()])?;
    let stream = stream_with(&rt, &[first.as_slice(), second.as_slice()])?;
    let words = &["aether", "ship", "4"];
    ships(
        &rt,
        primary.as_slice(),
        words,
        &End::Fine,
        stream.as_slice(),
    )?;
    let standby = log_with(&rt, &[])?;
    let left = log_with(&rt, &[first.as_slice(), second.as_slice()])?;
    let text = b"lsn 605\n0 100\n1 0\n";
    follows(
        &rt,
        standby.as_slice(),
        stream.as_slice(),
        &End::Fine,
        text,
        left.as_slice(),
    )
}

/// A frame of 65536 units is followed.
#[test]
fn follows_the_longest_frame(rt: HostRuntime) -> Result<(), Fail> {
    let frame = notes(&rt, 32768)?;
    let stream = stream_with(&rt, &[frame.as_slice()])?;
    let standby = log_with(&rt, &[])?;
    let left = log_with(&rt, &[frame.as_slice()])?;
    let given = Given {
        held: standby.as_slice(),
        room: 600_000,
        input: stream.as_slice(),
        ..Given::words(&["aether", "follow", "standby.log"])
    };
    let text = b"lsn 65540\n0 100\n1 0\n";
    leaves(&rt, &given, &End::Fine, text, left.as_slice())
}
