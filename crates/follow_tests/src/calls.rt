//! What `ship` and `follow` answer, by their calls with the input in pieces of 1 and of 7 bytes, and by the top call.

ghost use Rattle.std.specs.Prelude.{◌<◌};

use cli_rig::{End, Given, answers, leaves};
use cli_shared::Detail;
use cli_standby::follow_command::follow_command;
use cli_standby::ship_command::ship_command;
use lsn_space::{Lsn, Word, number};
use memory_disk::{MemoryDisk, MemorySink, MemorySource};
use std::alloc::AllocGlobal;
use std::sync::Wait;
use std::test::Fail;
use std::thread::Threads;
use std::time::Clock;

/// Room for the writes and syncs of a frame of the most units.
const ROOM: usize = 600_000;

/// A call ended so and wrote this, as was wanted.
fn is_wanted(
    piece: usize,
    found: Detail,
    end: &End,
    written: &[u8],
    text: &[u8],
) -> Result<(), Fail> {
    let wanted = end.detail();
    if found != wanted || written != text {
        return Err(Fail::new(format_args!(
            "pieces of {piece}: {found:?} {written:?}, and not {wanted:?} {text:?}"
        )));
    }
    Ok(())
}

/// The log's bytes, in pieces of this length, are shipped from this LSN on: it ends so, and writes this.
fn ships_in<R: AllocGlobal>(
    rt: &R,
    piece: usize,
    log: &[u8],
    from: u32,
    end: &End,
    stream: &[u8],
) -> Result<(), Fail>
    requires { 0 < piece }
{
    let Ok(mut source) = MemorySource::make(rt.alloc(), log, piece, &[]) else {
        return Err(Fail::new("no memory"));
    };
    let Ok(mut sink) = MemorySink::make(rt.alloc(), 10_000, &[]) else {
        return Err(Fail::new("no memory"));
    };
    let found = ship_command(rt.alloc(), Lsn::new(from), &mut source, &mut sink);
    is_wanted(piece, found, end, sink.bytes(), stream)
}

/// The LSN that is the last of these words.
fn lsn_in(words: &[&str]) -> Option<u32> {
    let lsn = number(words.last()?.as_bytes(), 0, u64::from(u32::MAX))?;
    Some(lsn as u32)
}

/// By these words, of which the last is an LSN, the log is shipped from there on: it ends so, and writes this.
pub(crate) fn ships<R: Threads + Wait + Clock + Sync + AllocGlobal>(
    rt: &R,
    log: &[u8],
    words: &[&str],
    end: &End,
    stream: &[u8],
) -> Result<(), Fail> {
    let Some(from) = lsn_in(words) else {
        return Err(Fail::new("no LSN"));
    };
    ships_in(rt, 1, log, from, end, stream)?;
    ships_in(rt, 7, log, from, end, stream)?;
    let given = Given {
        input: log,
        ..Given::words(words)
    };
    answers(rt, &given, end, stream)
}

/// The log follows the stream's bytes, in pieces of this length: it ends so, writes this, and leaves these bytes.
fn follows_in<R: AllocGlobal>(
    rt: &R,
    piece: usize,
    log: &[u8],
    stream: &[u8],
    end: &End,
    text: &[u8],
    left: &[u8],
) -> Result<(), Fail>
    requires { 0 < piece }
{
    let Ok(word) = Word::make(rt.alloc(), "standby.log") else {
        return Err(Fail::new("no memory"));
    };
    let Ok(mut disk) = MemoryDisk::make(rt.alloc(), log, ROOM, &[]) else {
        return Err(Fail::new("no memory"));
    };
    let Ok(mut source) = MemorySource::make(rt.alloc(), stream, piece, &[]) else {
        return Err(Fail::new("no memory"));
    };
    let Ok(mut sink) = MemorySink::make(rt.alloc(), 1000, &[]) else {
        return Err(Fail::new("no memory"));
    };
    let found = follow_command(rt.alloc(), &word, &mut disk, &mut source, &mut sink);
    is_wanted(piece, found, end, sink.bytes(), text)?;
    is_left(piece, disk.bytes(), left)
}

/// These bytes were left, as was wanted.
fn is_left(piece: usize, found: &[u8], left: &[u8]) -> Result<(), Fail> {
    if found != left {
        return Err(Fail::new(format_args!("pieces of {piece}: left {found:?}, and not {left:?}")));
    }
    Ok(())
}

/// The log follows the stream: it ends so, writes this, and leaves these bytes.
pub(crate) fn follows<R: Threads + Wait + Clock + Sync + AllocGlobal>(
    rt: &R,
    log: &[u8],
    stream: &[u8],
    end: &End,
    text: &[u8],
    left: &[u8],
) -> Result<(), Fail> {
    follows_in(rt, 1, log, stream, end, text, left)?;
    follows_in(rt, 7, log, stream, end, text, left)?;
    let given = Given {
        held: log,
        room: ROOM,
        input: stream,
        ..Given::words(&["aether", "follow", "standby.log"])
    };
    leaves(rt, &given, end, text, left)
}
