//! The numbers of a file of records.

ghost use Rattle.std.specs.Prelude.{◌≡◌};

/// The byte that closes a gate.
pub const CLOSED: u8 = 0;

/// The most bytes of a text.
pub const MOST_BYTES: u32 = 0x1_0000;

/// The most bytes of a file that holds no record yet: its first gate, the magic bytes, and the next gate.
pub const MOST_FRESH: usize = 9;

/// The place of the first record's gate.
pub const FIRST: u64 = 8;

/// From here on in a file no record begins, so that no place passes 64 bits.
pub const MOST_PLACE: u64 = 1 << 62;

/// A law: the numbers that the definitions take from here are the file's.
pub fn file_numbers()
    ensures most { MOST_BYTES ≡ 65536 }
    ensures fresh { MOST_FRESH ≡ 9 }
    ensures first { FIRST ≡ 8 }
    ensures place { MOST_PLACE ≡ 4611686018427387904 }
{}
