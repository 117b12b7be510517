//! A text that was kept, and its bytes in the file.

ghost use Rattle.std.specs.Prelude.{◌≡◌, ◌<◌, ◌≤◌, ◌++◌, ◌∷◌, [], List, ℕ, length, IfOk, IfSome, IfNone, OnOk};
ghost use Rattle.std.specs.Int.{w32, to_be_bytes};
ghost use Rattle.own_records.specs.Records.{IsText, spelled};
ghost use Rattle.own_records.specs.declared.layout.TheConstants.{CLOSED};

use crate::layout::{CLOSED, MOST_BYTES};
use lsn_space::NoMemory;
use std::alloc::Global;
use std::marker::Model;

/// A text that was kept. Contracts see its bytes.
#[derive(Debug, Drop)]
pub struct Record {
    text: Vec<u8>,
}

impl Model for Record {
    ghost use Rattle.std.specs.Prelude.{ℕ, List};

    ghost Value = { List ℕ };

    ghost view = { λ kept. kept.text.items };
}

impl Record {
    pub fn text(&self) -> &[u8]
        ensures { result.now ≡ self.now }
    {
        self.text.as_slice()
    }
}

/// Adds a record with this text.
pub fn push_record(records: &mut Vec<Record>, alloc: Global, text: &[u8]) -> Result<(), NoMemory>
    ensures { OnOk result (records.new.items ≡ records.old.items ++ text.now ∷ []) }
{
    let mut bytes = Vec::new(alloc);
    bytes.extend_from_slice(text).map_err(|_| NoMemory)?;
    records.push(Record { text: bytes }).map_err(|_| NoMemory)
}

/// The length of the text that the bytes begin with, its bytes, and the bytes behind it.
fn split_counted(bytes: &[u8]) -> Option<(u32, &[u8], &[u8])>
    ensures counted { IfSome result (λ b. (0 < b.0) × (b.0 ≤ MOST_BYTES) × (length b.1.now ≡ b.0)) }
    ensures whole { IfSome result (λ b. bytes.now ≡ to_be_bytes w32 b.0 ++ b.1.now ++ b.2.now) }
    ensures none { IfNone result ((text rest : List ℕ) → IsText text → bytes.now ≡ spelled text ++ rest → ⊥) }
{
    let [a, b, c, d, rest @ ..] = bytes else {
        return None;
    };
    let count = u32::from_be_bytes([*a, *b, *c, *d]);
    if count == 0 || count > MOST_BYTES || rest.len() < count as usize {
        return None;
    }
    let (text, after) = rest.split_at(count as usize);
    Some((count, text, after))
}

/// The text that the bytes begin with, its length in front of it, and the bytes behind it.
pub fn split_text(bytes: &[u8]) -> Option<(&[u8], &[u8])>
    ensures text { IfSome result (λ b. IsText b.0.now) }
    ensures whole { IfSome result (λ b. bytes.now ≡ spelled b.0.now ++ b.1.now) }
    ensures none { IfNone result ((text rest : List ℕ) → IsText text → bytes.now ≡ spelled text ++ rest → ⊥) }
{
    let (_, text, after) = split_counted(bytes)?;
    Some((text, after))
}

/// A text as it is written behind its gate: its length, its bytes, and the next gate, closed.
pub fn sealed_text(alloc: Global, text: &[u8]) -> Result<Vec<u8>, NoMemory>
    requires { length text.now ≤ MOST_BYTES }
    ensures { IfOk result (λ bytes. bytes.items ≡ spelled text.now ++ CLOSED ∷ []) }
{
    let Ok(mut bytes) = Vec::with_capacity(alloc, 5 + text.len()) else {
        return Err(NoMemory);
    };
    let count = text.len() as u32;
    bytes.extend_from_slice(&count.to_be_bytes()).unwrap();
    bytes.extend_from_slice(text).unwrap();
    bytes.push_reserved(CLOSED);
    Ok(bytes)
}
