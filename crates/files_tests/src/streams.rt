//! Sources and sinks, in memory and over the system.

use crate::outcomes::{has_given, is_number};
use log_disk::{Failed, LinesBlock, Sink, Source, put_all};
use memory_disk::{MemorySink, MemorySource};
use std::io;
use std::io::{Error, ErrorKind, Read, Write};
use std::process::Abort;
use std::test::Fail;
use system_disk::{StdSink, StdSource};

/// Whether two texts are put in whole.
fn puts_two(sink: &mut MemorySink) -> bool {
    put_all(sink, b"lsn 4\n").is_ok() && put_all(sink, b"0 1").is_ok()
}

/// These bytes were put in, and they were all or weren't.
fn is_held(rt: &impl Abort, room: usize, found: (bool, &[u8]), want: (bool, &[u8])) {
    assert_eq!(rt; found, want, "room {room}");
}

/// A sink's room, the writes that fail; whether both texts are put in whole, and what is held then.
const PUT: &[(usize, &[u64], bool, &[u8])] = &[
    (9, &[], true, b"lsn 4\n0 1"),
    (8, &[], false, b"lsn 4\n0 "),
    (9, &[1], false, b""),
    (9, &[2], false, b"lsn 4\n"),
];

#[test]
fn holds_what_was_put_in(rt: HostRuntime) -> Result<(), Fail> {
    for (room, failing, whole, held) in PUT {
        let mut sink = MemorySink::make(rt.alloc(), *room, failing)?;
        let is_whole = puts_two(&mut sink);
        is_held(&rt, *room, (is_whole, sink.bytes()), (*whole, held));
    }
    Ok(())
}

/// Whether so many pieces of a hundred bytes are put into a block of 4096, each of its own byte, and are all written.
fn puts_pieces(sink: &mut MemorySink, pieces: u8) -> bool {
    let mut block = LinesBlock::new();
    for piece in 0..pieces {
        if block.put(sink, &[piece; 100]).is_err() {
            return false;
        }
    }
    block.write_out(sink).is_ok()
}

/// These are the first of the pieces' bytes, so many.
fn are_pieces(rt: &impl Abort, bytes: &[u8], want: usize) {
    let in_order = bytes
        .iter()
        .enumerate()
        .all(|(at, byte)| usize::from(*byte) == at / 100);
    assert_eq!(rt; (in_order, bytes.len()), (true, want));
}

/// A sink's room, the writes that fail; whether a hundred pieces are written whole, and how many bytes are held then. A block
/// has room for forty, so three writes are made, and the fourth may fail.
const BLOCKS: &[(usize, &[u64], bool, usize)] = &[
    (10000, &[4], true, 10000),
    (10000, &[3], false, 8000),
    (10000, &[2], false, 4000),
    (10000, &[1], false, 0),
    (4050, &[], false, 4050),
    (9999, &[], false, 9999),
];

#[test]
fn writes_pieces_in_blocks(rt: HostRuntime) -> Result<(), Fail> {
    for (room, failing, whole, held) in BLOCKS {
        let mut sink = MemorySink::make(rt.alloc(), *room, failing)?;
        assert!(rt; puts_pieces(&mut sink, 100) == *whole, "room {room}");
        are_pieces(&rt, sink.bytes(), *held);
    }
    Ok(())
}

/// The next read of at most three bytes gives these, or fails.
fn gives<S: Source>(rt: &impl Abort, source: &mut S, read: u64, want: Option<&[u8]>) {
    let mut buf = [0; 3];
    let found = match source.read(&mut buf) {
        Ok(count) => Some(&buf[..count]),
        Err(Failed) => None,
    };
    has_given(rt, read, found, want);
}

const READS: &[(u64, Option<&[u8]>)] = &[
    (1, Some(b"ab")),
    (2, None),
    (3, Some(b"cd")),
    (4, Some(b"e")),
    (5, None),
    (6, Some(b"")),
];

#[test]
fn gives_pieces_and_fails_where_told(rt: HostRuntime) -> Result<(), Fail> {
    let mut source = MemorySource::make(rt.alloc(), b"abcde", 2, &[2, 5])?;
    for (read, want) in READS {
        gives(&rt, &mut source, *read, *want);
    }
    Ok(())
}

/// A call has this number of bytes, or fails.
fn moves(rt: &impl Abort, found: Result<usize, Failed>, want: Result<usize, Failed>) {
    assert_eq!(rt; found, want);
}

#[test]
fn reads_from_the_system(rt: HostRuntime) {
    let text: &[u8] = b"abc";
    let mut source = StdSource::make(text);
    let mut buf = [0; 2];
    for want in [2, 1, 0] {
        moves(&rt, source.read(&mut buf), Ok(want));
    }
    is_number(&rt, "faults", source.faults(), 0);
}

#[test]
fn counts_what_the_system_refuses(rt: HostRuntime) {
    let mut held = [0; 2];
    let mut sink = StdSink::make(held.as_mut_slice());
    moves(&rt, sink.write(b"abc"), Ok(2));
    is_number(&rt, "after the first write", sink.faults(), 0);
    moves(&rt, sink.write(b"c"), Err(Failed));
    is_number(&rt, "after the second write", sink.faults(), 1);
}

/// A stream that signals interrupt: so many calls are, and each other one moves a byte.
#[derive(Drop)]
struct Signalled {
    interrupts: u32,
}

impl Signalled {
    fn moves_a_byte(&mut self) -> io::Result<()> {
        if self.interrupts == 0 {
            return Ok(());
        }
        self.interrupts -= 1;
        Err(Error::from(ErrorKind::Interrupted))
    }
}

impl Read for Signalled {
    fn read(&mut self, buf: &mut [u8]) -> io::Result<usize> {
        self.moves_a_byte()?;
        Ok(buf.len().min(1))
    }
}

impl Write for Signalled {
    fn write(&mut self, buf: &[u8]) -> io::Result<usize> {
        self.moves_a_byte()?;
        Ok(buf.len().min(1))
    }

    fn flush(&mut self) -> io::Result<()> {
        Ok(())
    }
}

#[test]
fn makes_an_interrupted_call_again(rt: HostRuntime) {
    let mut source = StdSource::make(Signalled { interrupts: 3 });
    moves(&rt, source.read(&mut [0; 2]), Ok(1));
    is_number(&rt, "of interrupted reads", source.faults(), 0);
    let mut sink = StdSink::make(Signalled { interrupts: 3 });
    moves(&rt, sink.write(b"ab"), Ok(1));
    is_number(&rt, "of interrupted writes", sink.faults(), 0);
}
