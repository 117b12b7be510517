//! The numbers of the stream's format.

ghost use Rattle.std.specs.Prelude.{◌≡◌};

/// The bytes of a head: the magic bytes, and an LSN.
pub const HEAD_BYTES: usize = 11;

/// The bytes of a count.
pub const COUNT_BYTES: usize = 4;

/// The most units of a frame.
pub const MOST_FRAME_UNITS: u32 = 65536;

/// The most units of a frame that is shipped. A record alone has fewer.
pub const SHIPPED_UNITS: usize = 512;

/// A law: the numbers that the definitions take from here are the format's, 11, 4, 65536 and 512.
pub fn format_numbers()
    ensures head { HEAD_BYTES ≡ 11 }
    ensures count { COUNT_BYTES ≡ 4 }
    ensures most { MOST_FRAME_UNITS ≡ 65536 }
    ensures shipped { SHIPPED_UNITS ≡ 512 }
{}
