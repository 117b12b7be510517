//! A stream that comes in pieces.

ghost use Rattle.std.specs.Prelude.{◌≤◌, length, IfOk};
ghost use Rattle.stream_reader.specs.Advance.{CanRead};

use crate::plain::Found;
use lsn_space::NoMemory;
use std::alloc::Global;
use stream_reader::{BadStream, Part, StreamReader};

/// Takes bytes of the piece.
fn step(reader: &mut StreamReader, piece: &[u8]) -> Result<(usize, Part), BadStream>
    requires { CanRead reader.old }
    ensures within { IfOk result (λ r. r.0 ≤ length piece.now) }
    ensures read { IfOk result (λ _. CanRead reader.new) }
{
    reader.take(piece)
}

/// What has been read.
#[derive(Clone, Copy, Debug, PartialEq, Eq)]
struct Count {
    first: u32,
    frames: u64,
    units: u64,
}

/// Counts a part.
fn count_part(count: Count, part: Part, units: u64) -> Count {
    match part {
        Part::Head { first } => Count {
            first: first.units(),
            frames: 0,
            units: 0,
        },
        Part::Frame => Count {
            first: count.first,
            frames: count.frames.wrapping_add(1),
            units: count.units.wrapping_add(units),
        },
        _ => count,
    }
}

/// Takes a whole piece, part by part.
fn take_piece(reader: &mut StreamReader, count: Count, piece: &[u8]) -> Result<Count, BadStream>
    requires { CanRead reader.old }
    ensures { IfOk result (λ _. CanRead reader.new) }
{
    let mut count = count;
    let mut rest = piece;
    'parts: for _ in 0..piece.len() {
        let (used, part) = step(reader, rest)?;
        count = count_part(count, part, u64::from(reader.batch.count()));
        rest = rest.split_at(used).1;
        if rest.is_empty() {
            break;
        }
    }
    Ok(count)
}

/// Takes the bytes in pieces of this length.
fn take_all(reader: &mut StreamReader, bytes: &[u8], piece: usize) -> Result<Count, BadStream>
    requires { CanRead reader.old }
    ensures { IfOk result (λ _. CanRead reader.new) }
{
    let mut count = Count {
        first: 0,
        frames: 0,
        units: 0,
    };
    let mut rest = bytes;
    'pieces: for _ in 0..bytes.len() {
        let (front, behind) = rest.split_at(piece.min(rest.len()));
        count = take_piece(reader, count, front)?;
        rest = behind;
    }
    Ok(count)
}

/// What the reader makes of the bytes, in pieces of this length.
pub fn read_in_pieces(alloc: Global, bytes: &[u8], piece: usize) -> Result<Found, NoMemory> {
    let mut reader = StreamReader::make(alloc)?;
    let count = match take_all(&mut reader, bytes, piece) {
        Ok(count) => count,
        Err(fault) => {
            return Ok(Found::Bad {
                offset: fault.offset,
            });
        }
    };
    match reader.finish() {
        Ok(()) => Ok(Found::Whole {
            first: count.first,
            frames: count.frames,
            units: count.units,
        }),
        Err(fault) => Ok(Found::Bad {
            offset: fault.offset,
        }),
    }
}
