//! The records of a frame.

ghost use Rattle.std.specs.Prelude.{◌≡◌, ◌↔◌, ◌<◌, ◌≤◌, ◌+◌, ◌^◌, List, IsTrue, length, drop, take, IfOk, OnErr};
ghost use Rattle.log_record.specs.declared.rec.Rec.{Rec};
ghost use Rattle.log_record.specs.declared.units.TheConstants.{LONGEST_RECORD};
ghost use Rattle.log_record.specs.LogList.{size_of, AreUnitsOf};
ghost use Rattle.log_record.specs.Spelling.{BeginsWith};

use log_record::{BadRec, Header, LONGEST_RECORD, Rec, Units, read};
use segment_file::Batch;

/// The record that the units of the batch from this index on begin with, and of how many units it is.
pub fn record_at(batch: &Batch, at: u32) -> Result<(Rec, u32), BadRec>
    requires { at < length batch.now.units }
    ensures found { IfOk result (λ r. BeginsWith (drop at batch.now.units) r.0 × (r.1 ≡ size_of r.0)) }
    ensures bad { OnErr result ((r : Rec) → BeginsWith (drop at batch.now.units) r → ⊥) }
{
    let header = Header::of(batch.at(at));
    let left = batch.count() - at;
    let count = left.min(header.units as u32).min(LONGEST_RECORD as u32);
    let units = units_at(batch, at, count);
    let (rec, size) = read(units.as_slice())?;
    Ok((rec, size as u32))
}

/// So many units of the batch, from this index on.
fn units_at(batch: &Batch, at: u32, count: u32) -> Units
    requires within { at + count ≤ length batch.now.units }
    requires fits { at + count < 2 ^ 32 }
    requires short { count ≤ LONGEST_RECORD }
    ensures { result ≡ take count (drop at batch.now.units) }
{
    let mut units = Units::new();
    'units: for index in 0..count {
        units.push(batch.at(at + index));
    }
    units
}

/// Whether the units are whole spellings of records.
pub(crate) fn is_whole(batch: &Batch) -> bool
    ensures { IsTrue result ↔ ((records : List Rec) × AreUnitsOf batch.now.units records) }
{
    let mut at = 0;
    'records: while at < batch.count() {
        let Ok((_, size)) = record_at(batch, at) else {
            return false;
        };
        at += size;
    }
    true
}
