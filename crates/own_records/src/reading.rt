//! The records in the bytes of a file.

ghost use Rattle.std.specs.Prelude.{◌≡◌, ◌++◌, ◌∷◌, ◌↔◌, IsTrue, List, ℕ, IfOk, IfErr, IfSome, IfNone};
ghost use Rattle.segment_file.specs.File.{BeginsAsLog};
ghost use Rattle.segment_file.specs.declared.layout.TheConstants.{OPEN};
ghost use Rattle.own_records.specs.Records.{magic, BeginsAsRecords, IsFresh, StandsAt, Holds, IsRecordsFaultOf};

use crate::layout::MOST_FRESH;
use crate::record::{Record, push_record, split_text};
use lsn_space::NoMemory;
use segment_file::{OPEN, after_gate};
use std::alloc::Global;

/// Why bytes are no file of records.
#[derive(Clone, Copy, Debug, PartialEq, Eq)]
pub enum RecordsFault {
    /// They begin with neither an open gate and the magic bytes nor with what a crash leaves of a file that is being made.
    NotRecords,

    /// Behind an open gate stands no whole record.
    BadRecord,

    NoMemory,
}

impl From<NoMemory> for RecordsFault {
    ghost use Rattle.std.specs.Prelude.{◌≡◌};
    ghost use Rattle.own_records.specs.declared.reading.RecordsFault.TheVariants as fault;

    ghost from_gives = { λ _ f. f ≡ fault.NoMemory };

    fn from(_: NoMemory) -> Self {
        RecordsFault::NoMemory
    }
}

/// Records, and the place in the file of the first gate that isn't open.
#[derive(Debug, Drop)]
pub struct Found {
    pub records: Vec<Record>,
    pub at: u64,
}

/// Whether no record was kept yet.
pub fn is_fresh(bytes: &[u8]) -> bool
    ensures { IsTrue result ↔ IsFresh bytes.now }
{
    after_gate(bytes).is_none() && bytes.len() <= MOST_FRESH
}

/// What follows the first gate and the magic bytes of a file of records.
fn after_magic(bytes: &[u8]) -> Option<&[u8]>
    ensures some { IfSome result (λ rest. bytes.now ≡ OPEN ∷ magic ++ rest.now) }
    ensures none { IfNone result (BeginsAsRecords bytes.now → ⊥) }
{
    match bytes {
        [OPEN, b'R', b'E', b'C', b'O', b'R', b'D', b'S', rest @ ..] => Some(rest),
        _ => None,
    }
}

/// The records of a file that isn't fresh.
pub fn scan_records(alloc: Global, bytes: &[u8]) -> Result<Found, RecordsFault>
    requires { IsFresh bytes.now → ⊥ }
    ensures found { IfOk result (λ found. StandsAt found.at found.records.items bytes.now) }
    ensures fault { IfErr result (IsRecordsFaultOf bytes.now) }
{
    let Some(mut rest) = after_magic(bytes) else {
        return Err(RecordsFault::NotRecords);
    };
    let mut records = Vec::new(alloc);
    'records: while let Some(body) = after_gate(rest) {
        let Some((text, after)) = split_text(body) else {
            return Err(RecordsFault::BadRecord);
        };
        push_record(&mut records, alloc, text)?;
        rest = after;
    }
    let at = (bytes.len() - rest.len()) as u64;
    Ok(Found { records, at })
}

/// The records in the bytes of a file.
pub fn records_in(alloc: Global, bytes: &[u8]) -> Result<Vec<Record>, RecordsFault>
    ensures found { IfOk result (λ records. Holds records.items bytes.now) }
    ensures fault { IfErr result (IsRecordsFaultOf bytes.now) }
{
    if is_fresh(bytes) {
        return Ok(Vec::new(alloc));
    }
    Ok(scan_records(alloc, bytes)?.records)
}

/// A law: bytes hold one list of records at most, and then are no log.
pub fn one_list()
    ensures one { (bytes : List ℕ) (a b : List (List ℕ)) → Holds a bytes → Holds b bytes → a ≡ b }
    ensures no_log { (bytes : List ℕ) (texts : List (List ℕ)) → Holds texts bytes → BeginsAsLog bytes → ⊥ }
{}
