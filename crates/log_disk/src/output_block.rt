//! A text of many lines goes to its sink in blocks, and not in a write for each line. Whoever writes one has a block of its own, and
//! writes it out before it answers.
ghost use Rattle.std.specs.Prelude.{◌≡◌, ◌≤◌, ◌+◌, ◌++◌, [], length, OnOk, OnErr};
ghost use Rattle.std.specs.Io.KnownBytes.{Appends};
ghost use Rattle.log_disk.specs.Faults.{HasCause};
ghost use Rattle.log_disk.specs.Streams.{AppendsPart};
ghost use Rattle.log_disk.specs.Blocks.{AppendsBlocks};

use crate::sink::{Sink, WriteFault, put_all};
use std::marker::Model;

/// How many bytes the block of a whole text holds, and for how many a read of a whole input asks.
pub const BLOCK_BYTES: usize = 65536;

/// How many bytes a block holds that is made anew for each few lines, which is dear for a large one.
const LINES_BYTES: usize = 4096;

/// Bytes of a text that wait, at most `ROOM` of them, until they are written in one piece. They lie in the value
/// itself, so no memory is asked for. Contracts see the bytes.
#[derive(Drop)]
pub struct Block<const ROOM: usize> {
    bytes: [u8; ROOM],
    len: usize,
}

/// The block of a whole text.
pub type OutputBlock = Block<BLOCK_BYTES>;

/// The block of a few lines.
pub type LinesBlock = Block<LINES_BYTES>;

impl<const ROOM: usize> Model for Block<ROOM> {
    ghost use Rattle.std.specs.Prelude.{◌≤◌, ℕ, List, take};

    ghost Value = { List ℕ };

    ghost view = { λ block. take block.len block.bytes };

    ghost invariant = { λ block. block.len ≤ ROOM };
}

impl<const ROOM: usize> Block<ROOM> {
    /// A block in which nothing waits.
    pub fn new() -> Block<ROOM>
        ensures { result ≡ [] }
    {
        Block {
            bytes: [0; ROOM],
            len: 0,
        }
    }

    /// Puts a piece behind the bytes that wait. These are written out before, where the block has no room for the piece.
    /// At a fault a part of all this was written, and nothing waits.
    pub fn put<K: Sink>(&mut self, sink: &mut K, piece: &[u8]) -> Result<(), WriteFault>
        requires { length piece.now ≤ ROOM }
        ensures { AppendsBlocks K.Sink sink.old sink.new (self.old ++ piece.now) self.new result
            (length self.old + length piece.now ≤ ROOM) }
    {
        self.make_room(sink, piece.len())?;
        self.push(piece);
        Ok(())
    }

    /// Writes out what waits, unless so many bytes more have room.
    fn make_room<K: Sink>(&mut self, sink: &mut K, count: usize) -> Result<(), WriteFault>
        requires { count ≤ ROOM }
        ensures appends { AppendsBlocks K.Sink sink.old sink.new self.old self.new result (length self.old + count ≤ ROOM) }
        ensures room { OnOk result (length self.new + count ≤ ROOM) }
        ensures stays { length self.old + count ≤ ROOM → self.new ≡ self.old }
    {
        if count <= ROOM - self.len {
            return Ok(());
        }
        self.write_out(sink)
    }

    /// Puts a piece that has room behind the bytes that wait.
    fn push(&mut self, piece: &[u8])
        requires { length self.old + length piece.now ≤ ROOM }
        ensures { self.new ≡ self.old ++ piece.now }
    {
        let end = self.len + piece.len();
        let bytes = &mut self.bytes[..];
        bytes[self.len..end].copy_from_slice(piece);
        self.len = end;
    }

    /// Writes the bytes that wait in one piece, or a part of them at a fault. Then nothing waits.
    pub fn write_out<K: Sink>(&mut self, sink: &mut K) -> Result<(), WriteFault>
        ensures all { OnOk result (Appends (K.held_bytes sink.old) (K.held_bytes sink.new) self.old) }
        ensures prefix { OnErr result (AppendsPart (K.held_bytes sink.old) (K.held_bytes sink.new) self.old) }
        ensures empty { self.new ≡ [] }
        ensures cause { HasCause (K.faults sink.old) (K.faults sink.new) result }
    {
        let written = put_all(sink, &self.bytes[..self.len]);
        self.len = 0;
        written
    }
}
