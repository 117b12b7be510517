//! The lines of what a flush sent.
ghost use Rattle.std.specs.Prelude.{◌≡◌, ◌≤◌, ◌+◌, ◌∷◌, List, ℕ, length, drop};
ghost use Rattle.lsn_space.specs.declared.lsn.TheConstants.{LAST};
ghost use Rattle.log_record.specs.declared.rec.Rec.{Rec};
ghost use Rattle.log_record.specs.Spelling.{header, spelling, IsSpellable, BeginsWith};
ghost use Rattle.log_record.specs.LogList.{AreUnitsOf};
ghost use Rattle.end_lines.specs.Telling.{ended};
ghost use Rattle.flusher.specs.KeptLog.{StandsInAll};
ghost use Rattle.daemon_turn.specs.Telling.{TellsBatch};

use end_lines::{Tally, Voice, tell_record};
use flusher::Flusher;
use log_disk::{LinesBlock, LogDisk, Sink, WriteFault};
use log_record::{COMMIT, Header, OVER, Rec, SHORT};
use lsn_space::Lsn;
use segment_file::Batch;

/// Counts the end records of the flusher's batch, whose first unit is at this LSN, and with `Voice::Lines` writes a line for each. Lines
/// go to the sink in blocks; where a write fails, more records may have been counted than have their line.
pub fn tell<D: LogDisk, K: Sink>(
    flusher: &Flusher<D>,
    from: Lsn,
    voice: Voice,
    sink: &mut K,
    tally: &mut Tally,
) -> Result<u32, WriteFault>
    // No line is written before each image holds the record that it tells of.
    requires held { StandsInAll D.LogDisk flusher.now.disk.now from flusher.now.batch.units }
    requires spelled { (records : List Rec) × AreUnitsOf flusher.now.batch.units records }
    requires end { from + length flusher.now.batch.units ≤ LAST }
    requires few { tally.old.done + tally.old.refused + length flusher.now.batch.units ≤ LAST }
    ensures { TellsBatch K.Sink voice from flusher.now.batch.units sink.old sink.new tally.old tally.new result }
{
    tell_batch(&flusher.batch, from, voice, sink, tally)
}

/// Counts the end records of these units, the first of which is at this LSN, and with `Voice::Lines` writes a line for each.
fn tell_batch<K: Sink>(
    batch: &Batch,
    from: Lsn,
    voice: Voice,
    sink: &mut K,
    tally: &mut Tally,
) -> Result<u32, WriteFault>
    requires spelled { (records : List Rec) × AreUnitsOf batch.now.units records }
    requires end { from + length batch.now.units ≤ LAST }
    requires few { tally.old.done + tally.old.refused + length batch.now.units ≤ LAST }
    ensures { TellsBatch K.Sink voice from batch.now.units sink.old sink.new tally.old tally.new result }
{
    let mut block = LinesBlock::new();
    let mut at = 0;
    let mut lines = 0;
    'records: while at < batch.count() {
        let (end, size) = end_at(batch, at);
        at += u32::from(size);
        let Some(rec) = &end else {
            continue;
        };
        tally.count(rec);
        lines += tell_record(rec, Lsn::new(from.units() + at), voice, &mut block, sink)?;
    }
    block.write_out(sink)?;
    Ok(lines)
}

/// The record that begins at that index, where it ends a transaction, and how many units it has. Its first unit alone
/// says that, so no further unit of a record is read.
fn end_at(batch: &Batch, at: u32) -> (Option<Rec>, u8)
    requires { (rec : Rec) × BeginsWith (drop at batch.now.units) rec }
    ensures { (rec : Rec) × BeginsWith (drop at batch.now.units) rec × (result.0 ≡ ended rec) × (result.1 ≡ length (spelling rec)) }
{
    let head = Header::of(batch.at(at));
    (end_of(head), head.units)
}

/// The record of one unit that ends a transaction, where this is the first unit of one.
fn end_of(head: Header) -> Option<Rec>
    ensures { (rec : Rec) → (body : List ℕ) → IsSpellable rec
        → spelling rec ≡ header head.kind head.units head.field head.txn ∷ body → result ≡ ended rec }
{
    let (txn, number) = (head.txn, u32::from(head.field));
    match head.kind {
        COMMIT => Some(Rec::Commit { txn, legs: number }),
        SHORT => Some(Rec::Short { txn, leg: number }),
        OVER => Some(Rec::Over { txn, leg: number }),
        _ => None,
    }
}
