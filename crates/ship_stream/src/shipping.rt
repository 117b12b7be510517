//! The writer. It has the units of a list from a boundary on, and takes no memory.

ghost use Rattle.std.specs.Prelude.{◌≡◌, ◌<◌, ◌+◌, ◌++◌, ◌^◌, ◌∷◌, ℕ, List, length, OnOk, OnErr};
ghost use Rattle.std.specs.List.{flat_map};
ghost use Rattle.std.specs.Int.{w32, to_be_bytes};
ghost use Rattle.std.specs.Io.KnownBytes.{Appends};
ghost use Rattle.log_disk.specs.Faults.{HasCause};
ghost use Rattle.log_disk.specs.Streams.{AppendsPart};
ghost use Rattle.log_record.specs.declared.rec.Rec.{Rec};
ghost use Rattle.log_record.specs.LogList.{size_of, AreUnitsOf};
ghost use Rattle.log_record.specs.Spelling.{spelling, IsSpellable};
ghost use Rattle.lsn_space.specs.Unit.{unit_bytes};
ghost use Rattle.ship_stream.specs.Frames.{stream_of};
ghost use Rattle.log_disk.specs.Blocks.{PutsPiece};
ghost use Rattle.ship_stream.specs.Shipping.{BeginsFrame};
ghost use Rattle.ship_stream.specs.Stream.{head_bytes, counted_bytes};

use crate::layout::SHIPPED_UNITS;
use log_disk::{OutputBlock, Sink, WriteFault};
use log_record::Header;
use lsn_space::{Lsn, bytes_of};

/// Writes the stream of the records that these units spell, the first of which starts at this LSN, or a part of it at a fault.
/// Each frame has as many whole records as fit.
pub fn put_stream<K: Sink>(from: Lsn, units: &[u64], sink: &mut K) -> Result<(), WriteFault>
    requires { (records : List Rec) × AreUnitsOf units.now records }
    ensures all { (records : List Rec) → AreUnitsOf units.now records
        → OnOk result (Appends (K.held_bytes sink.old) (K.held_bytes sink.new) (stream_of from records)) }
    ensures prefix { (records : List Rec) → AreUnitsOf units.now records
        → OnErr result (AppendsPart (K.held_bytes sink.old) (K.held_bytes sink.new) (stream_of from records)) }
    ensures cause { HasCause (K.faults sink.old) (K.faults sink.new) result }
{
    let mut block = OutputBlock::new();
    put_head(from, &mut block, sink)?;
    let mut rest = units;
    'frames: while !rest.is_empty() {
        let (frame, behind) = rest.split_at(frame_len(rest));
        put_counted(frame, &mut block, sink)?;
        rest = behind;
    }
    put_number(0, &mut block, sink)?;
    block.write_out(sink)
}

/// Puts the head.
#[tactic(auto, unfolding(crate::specs::Stream::head_bytes))]
fn put_head<K: Sink>(from: Lsn, block: &mut OutputBlock, sink: &mut K) -> Result<(), WriteFault>
    ensures { PutsPiece K.Sink (head_bytes from) sink.old sink.new block.old block.new result }
{
    let [a, b, c, d] = from.units().to_be_bytes();
    block.put(
        sink,
        &[b'A', b'E', b'S', b'H', b'I', b'P', b'1', a, b, c, d],
    )
}

/// Puts a count.
fn put_number<K: Sink>(count: u32, block: &mut OutputBlock, sink: &mut K) -> Result<(), WriteFault>
    ensures { PutsPiece K.Sink (to_be_bytes w32 count) sink.old sink.new block.old block.new result }
{
    block.put(sink, &count.to_be_bytes())
}

/// Puts the units of a frame behind their count.
fn put_counted<K: Sink>(
    units: &[u64],
    block: &mut OutputBlock,
    sink: &mut K,
) -> Result<(), WriteFault>
    requires { length units.now < 2 ^ 32 }
    ensures { PutsPiece K.Sink (counted_bytes (length units.now) units.now) sink.old sink.new block.old block.new result }
{
    put_number(units.len() as u32, block, sink)?;
    put_units(units, block, sink)
}

/// Puts units.
fn put_units<K: Sink>(
    units: &[u64],
    block: &mut OutputBlock,
    sink: &mut K,
) -> Result<(), WriteFault>
    ensures { PutsPiece K.Sink (flat_map unit_bytes units.now) sink.old sink.new block.old block.new result }
{
    'units: for unit in units {
        block.put(sink, &bytes_of(*unit))?;
    }
    Ok(())
}

/// How many units the first frame of a list has: as many whole records as fit.
fn frame_len(units: &[u64]) -> usize
    requires records { (records : List Rec) × AreUnitsOf units.now records }
    requires some { 0 < length units.now }
    ensures { BeginsFrame units.now result }
{
    let mut len = 0;
    let mut rest = units;
    'records: while let Some((first, _)) = rest.split_first() {
        let size = record_len(*first);
        if len + size > SHIPPED_UNITS {
            break;
        }
        len += size;
        rest = rest.split_at(size).1;
    }
    len
}

/// How many units a record has whose first unit is this.
fn record_len(first: u64) -> usize
    ensures { (rec : Rec) (rest more : List ℕ) → IsSpellable rec → first ∷ rest ≡ spelling rec ++ more → result ≡ size_of rec }
{
    Header::of(first).units as usize
}
