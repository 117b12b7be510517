//! The bytes of a number, or of a head, that isn't whole yet.

ghost use Rattle.std.specs.Prelude.{◌≡◌, ◌<◌, ◌≤◌, ◌+◌, ◌++◌, [], length, take};
ghost use Rattle.ship_stream.specs.declared.layout.TheConstants.{HEAD_BYTES};

use ship_stream::HEAD_BYTES;
use std::marker::Model;

/// At most `HEAD_BYTES` bytes, in the value itself. Contracts see the bytes.
#[derive(Drop)]
pub struct Begun {
    bytes: [u8; HEAD_BYTES],
    len: usize,
}

impl Model for Begun {
    ghost use Rattle.std.specs.Prelude.{◌≤◌, ℕ, List, take};
    ghost use Rattle.ship_stream.specs.declared.layout.TheConstants.{HEAD_BYTES};

    ghost Value = { List ℕ };

    ghost view = { λ begun. take begun.len begun.bytes };

    ghost invariant = { λ begun. begun.len ≤ HEAD_BYTES };
}

impl Begun {
    /// No bytes.
    pub fn new() -> Begun
        ensures { result ≡ [] }
    {
        Begun {
            bytes: [0; HEAD_BYTES],
            len: 0,
        }
    }

    pub fn count(&self) -> usize
        ensures { result ≡ length self.now }
    {
        self.len
    }

    pub fn as_slice(&self) -> &[u8]
        ensures { result.now ≡ self.now }
    {
        &self.bytes[..self.len]
    }

    pub fn clear(&mut self)
        ensures { self.new ≡ [] }
    {
        self.len = 0;
    }

    /// Adds the bytes.
    fn push(&mut self, piece: &[u8])
        requires { length self.old + length piece.now ≤ HEAD_BYTES }
        ensures { self.new ≡ self.old ++ piece.now }
    {
        let end = self.len + piece.len();
        self.bytes[self.len..end].copy_from_slice(piece);
        self.len = end;
    }

    /// Adds a prefix of the piece, until there are so many bytes, and answers how many were taken.
    pub fn fill(&mut self, piece: &[u8], size: usize) -> usize
        requires some { length self.old < size }
        requires most { size ≤ HEAD_BYTES }
        ensures within { result ≤ length piece.now }
        ensures added { self.new ≡ self.old ++ take result piece.now }
        ensures all { length self.new < size → result ≡ length piece.now }
        ensures most { length self.new ≤ size }
    {
        let used = piece.len().min(size - self.len);
        self.push(piece.split_at(used).0);
        used
    }
}
