//! A line of a text, made from its last byte to its first: so the digits of a number are written where they stay.

ghost use Rattle.std.specs.Prelude.{◌≡◌, ◌≤◌, ◌<◌, ◌+◌, ◌++◌, ◌∷◌, [], length};
ghost use Rattle.lsn_space.specs.Number.{number_text};
ghost use Rattle.log_recovery.specs.Dump.{signed_text};
ghost use Rattle.log_recovery.specs.declared.line.TheConstants.{LINE_BYTES};

use itoa::write_digits;
use lsn_space::decimal;
use std::marker::Model;

/// The most bytes of a line: a note has up to 200.
pub const LINE_BYTES: usize = 256;

/// A line that grows at its front, at most `LINE_BYTES` bytes. Contracts see the bytes.
#[derive(Drop)]
pub struct Line {
    bytes: [u8; LINE_BYTES],
    start: usize,
}

impl Model for Line {
    ghost use Rattle.std.specs.Prelude.{◌≤◌, ℕ, List, drop};
    ghost use Rattle.log_recovery.specs.declared.line.TheConstants.{LINE_BYTES};

    ghost Value = { List ℕ };

    ghost view = { λ line. drop line.start line.bytes };

    ghost invariant = { λ line. line.start ≤ LINE_BYTES };
}

impl Line {
    /// A line of no byte.
    pub fn new() -> Line
        ensures { result ≡ [] }
    {
        Line {
            bytes: [0; LINE_BYTES],
            start: LINE_BYTES,
        }
    }

    /// Drops all bytes.
    pub fn clear(&mut self)
        ensures { self.new ≡ [] }
    {
        self.start = LINE_BYTES;
    }

    /// Puts a byte before the others.
    #[inline(always)]
    pub fn put_byte(&mut self, byte: u8)
        requires { length self.old < LINE_BYTES }
        ensures { self.new ≡ byte ∷ self.old }
    {
        self.start -= 1;
        self.bytes[self.start] = byte;
    }

    /// Puts a piece before the others.
    #[inline(always)]
    pub fn put_piece(&mut self, piece: &[u8])
        requires { length self.old + length piece.now ≤ LINE_BYTES }
        ensures { self.new ≡ piece.now ++ self.old }
    {
        let end = self.start;
        let start = end - piece.len();
        self.bytes[start..end].copy_from_slice(piece);
        self.start = start;
    }

    /// Puts the text of a number before the others.
    pub fn put_number(&mut self, n: u32)
        requires { length self.old + 10 ≤ LINE_BYTES }
        ensures text { self.new ≡ number_text n ++ self.old }
        ensures short { length self.new ≤ length self.old + 10 }
    {
        self.start = write_digits(n as u64, &mut self.bytes, self.start);
    }

    /// Puts the text of a balance before the others.
    pub fn put_balance(&mut self, balance: u64)
        requires { length self.old + 20 ≤ LINE_BYTES }
        ensures text { self.new ≡ number_text balance ++ self.old }
        ensures short { length self.new ≤ length self.old + 20 }
    {
        self.start = write_digits(balance, &mut self.bytes, self.start);
    }

    /// Puts the text of a number that may be below 0 before the others.
    #[inline(always)]
    pub fn put_signed(&mut self, n: i64)
        requires { length self.old + 21 ≤ LINE_BYTES }
        ensures text { self.new ≡ signed_text n ++ self.old }
        ensures short { length self.new ≤ length self.old + 21 }
    {
        self.put_piece(decimal(n.unsigned_abs()).as_slice());
        if n < 0 {
            self.put_byte(b'-');
        }
    }

    /// The bytes.
    pub fn as_slice(&self) -> &[u8]
        ensures bytes { result.now ≡ self.now }
        ensures short { length self.now ≤ LINE_BYTES }
    {
        &self.bytes[self.start..]
    }
}
