//! The numbers of the file format.

ghost use Rattle.std.specs.Prelude.{◌≡◌};

/// The byte of an open gate.
pub const OPEN: u8 = 0x4f;

/// The byte that the writer closes a gate with.
pub const CLOSED: u8 = 0;

/// The magic bytes that a file begins with behind its first gate.
pub const MAGIC: usize = 7;

/// The index of the last among them.
pub const LAST_OF_MAGIC: usize = 6;

/// The magic bytes and a count, which stand before a file's first units.
pub const HEAD: usize = 11;

/// The most units of a batch.
pub const MOST_UNITS: u32 = 0x10_0000;

/// A law: the numbers that the definitions take from here are the format's, 0x4F, 0, 11 and 1048576.
pub fn format_numbers()
    ensures open { OPEN ≡ 79 }
    ensures closed { CLOSED ≡ 0 }
    ensures head { HEAD ≡ 11 }
    ensures most { MOST_UNITS ≡ 1048576 }
{}
