//! The units of a frame, from the bytes that come.

ghost use Rattle.std.specs.Prelude.{◌≡◌, ◌⊎◌, ◌<◌, ◌≤◌, ◌+◌, [], length};
ghost use Rattle.stream_reader.specs.Pushing.{PushesBytes};

use crate::begun::Begun;
use lsn_space::UNIT_BYTES;
use segment_file::Batch;
use segment_head::first_unit;

/// Takes bytes of the piece until the batch has so many units, and answers how many were taken. Bytes of a unit that isn't
/// whole wait.
pub(crate) fn push_bytes(batch: &mut Batch, begun: &mut Begun, count: u32, piece: &[u8]) -> usize
    requires under { length batch.old.units < count }
    requires room { count ≤ batch.old.room }
    requires begun { length begun.old < 8 }
    ensures taken { PushesBytes batch.old batch.new begun.old begun.new piece.now result }
    ensures begun { length begun.new < 8 }
    ensures more { length batch.new.units < count → result ≡ length piece.now }
    ensures whole { count ≤ length batch.new.units → (length batch.new.units ≡ count) × (begun.new ≡ []) }
{
    let first = end_unit(batch, begun, piece);
    if begun.count() > 0 {
        return first;
    }
    let used = first + push_whole(batch, count, piece.split_at(first).1);
    if batch.count() == count {
        return used;
    }
    used + begun.fill(piece.split_at(used).1, UNIT_BYTES)
}

/// Takes bytes of the piece to the end of the unit under way, where there is one.
fn end_unit(batch: &mut Batch, begun: &mut Begun, piece: &[u8]) -> usize
    requires room { length batch.old.units < batch.old.room }
    requires begun { length begun.old < 8 }
    ensures taken { PushesBytes batch.old batch.new begun.old begun.new piece.now result }
    ensures more { length batch.new.units ≤ length batch.old.units + 1 }
    ensures begun { (begun.new ≡ [])
        ⊎ ((length begun.new < 8) × (result ≡ length piece.now) × (length batch.new.units ≡ length batch.old.units)) }
{
    if begun.count() == 0 {
        return 0;
    }
    let used = begun.fill(piece, UNIT_BYTES);
    if let Some((unit, _)) = first_unit(begun.as_slice()) {
        batch.push(unit);
        begun.clear();
    }
    used
}

/// Takes whole units of the piece until the batch has so many.
fn push_whole(batch: &mut Batch, count: u32, piece: &[u8]) -> usize
    requires under { length batch.old.units ≤ count }
    requires room { count ≤ batch.old.room }
    ensures taken { PushesBytes batch.old batch.new [] [] piece.now result }
    ensures most { length batch.new.units ≤ count }
    ensures more { length batch.new.units < count → length piece.now < result + 8 }
{
    let mut rest = piece;
    'units: while batch.count() < count {
        let Some((unit, after)) = first_unit(rest) else {
            break;
        };
        batch.push(unit);
        rest = after;
    }
    piece.len() - rest.len()
}
