//! A record's line is put into a block of lines.
ghost use Rattle.std.specs.Prelude.{◌≡◌, ◌++◌, IfOk, OnErr};
ghost use Rattle.log_disk.specs.Faults.{HasCause};
ghost use Rattle.log_disk.specs.Streams.{AppendsPart, AppendsBut};
ghost use Rattle.end_lines.specs.EndLines.{line_said, count_said};

use crate::end_line::line_of;
use crate::voice::Voice;
use log_disk::{LinesBlock, Sink, WriteFault};
use log_record::Rec;
use lsn_space::Lsn;

/// With `Voice::Lines` puts the line of a record that ends at this LSN into the block, where it ends a transaction; answers how
/// many lines that is. A block without room for it goes to the sink before.
pub fn tell_record<K: Sink>(
    rec: &Rec,
    end: Lsn,
    voice: Voice,
    block: &mut LinesBlock,
    sink: &mut K,
) -> Result<u32, WriteFault>
    ensures all { IfOk result (λ lines.
        AppendsBut (K.held_bytes sink.old) (K.held_bytes sink.new) (block.old ++ line_said voice end rec.now) block.new
        × (lines ≡ count_said voice rec.now)) }
    ensures prefix { OnErr result
        (AppendsPart (K.held_bytes sink.old) (K.held_bytes sink.new) (block.old ++ line_said voice end rec.now)) }
    ensures cause { HasCause (K.faults sink.old) (K.faults sink.new) result }
{
    if voice == Voice::Count {
        return Ok(0);
    }
    let Some(line) = line_of(rec, end) else {
        return Ok(0);
    };
    block.put(sink, line.as_slice())?;
    Ok(1)
}
