//! The text of a note, in units.

ghost use Rattle.std.specs.Prelude.{◌≡◌, ◌↔◌, ◌-◌, ◌*◌, ◌≤◌, ◌++◌, ℕ, List, length, replicate, All, IsTrue, IfOk, OnErr};
ghost use Rattle.std.specs.List.{flat_map};
ghost use Rattle.lsn_space.specs.Unit.{unit_bytes};
ghost use Rattle.log_record.specs.declared.text.TheConstants.{LONGEST_NOTE};
ghost use Rattle.log_record.specs.Spelling.{text_units, units_for, IsPrintable, IsNoteText};

use crate::rec::BadRec;
use crate::text::{LONGEST_NOTE, Text};
use crate::units::Units;
use arrayvec::ArrayVec;
use lsn_space::{bytes_of, unit_of};

/// How many units the bytes of a note take.
pub fn note_units(len: usize) -> usize
    requires { len ≤ LONGEST_NOTE }
    ensures { result ≡ units_for len }
{
    (len + 7) / 8
}

/// Appends the units of a text: its bytes, then zero bytes to the end of the last unit.
pub fn push_text(units: &mut Units, text: &[u8])
    requires fits { length text.now ≤ LONGEST_NOTE }
    requires room { length units.old ≤ 1 }
    ensures { units.new ≡ units.old ++ text_units text.now }
{
    let bytes = buffer_of(text);
    let (chunks, _) = bytes[..8 * note_units(text.len())].as_chunks::<8>();
    'chunks: for chunk in chunks {
        units.push(unit_of(*chunk));
    }
}

/// The text, with zero bytes behind it.
fn buffer_of(text: &[u8]) -> [u8; LONGEST_NOTE]
    requires { length text.now ≤ LONGEST_NOTE }
    ensures { result ≡ text.now ++ replicate (LONGEST_NOTE - length text.now) 0 }
{
    let mut bytes = [0; LONGEST_NOTE];
    bytes[..text.len()].copy_from_slice(text);
    bytes
}

/// The bytes of so many units.
fn bytes_in(units: &[u64]) -> ArrayVec<u8, LONGEST_NOTE>
    requires { 8 * length units.now ≤ LONGEST_NOTE }
    ensures bytes { result.items ≡ flat_map unit_bytes units.now }
    ensures len { length result.items ≡ 8 * length units.now }
{
    let mut bytes = ArrayVec::new();
    'units: for unit in units {
        bytes.try_extend_from_slice(&bytes_of(*unit)).unwrap();
    }
    bytes
}

/// The text of `len` bytes in these units, if its bytes are printable and what follows it is zero.
pub fn read_text(len: usize, units: &[u64]) -> Result<Text, BadRec>
    requires some { 1 ≤ len }
    requires short { len ≤ LONGEST_NOTE }
    requires count { length units.now ≡ units_for len }
    ensures found { IfOk result (λ text. (length text ≡ len) × (units.now ≡ text_units text)) }
    ensures note { IfOk result IsNoteText }
    ensures bad { OnErr result ((text : List ℕ) → IsNoteText text → length text ≡ len → units.now ≡ text_units text → ⊥) }
{
    let bytes = bytes_in(units);
    let (text, padding) = bytes.as_slice().split_at(len);
    if is_printable(text) && is_zero(padding) {
        Ok(Text::from_bytes(text))
    } else {
        Err(BadRec)
    }
}

/// Whether all bytes are printable ASCII.
pub fn is_printable(text: &[u8]) -> bool
    ensures { IsTrue result ↔ All IsPrintable text.now }
{
    text.iter().all(|byte| matches!(*byte, 0x20..=0x7e))
}

fn is_zero(padding: &[u8]) -> bool
    ensures { IsTrue result ↔ All (λ byte. byte ≡ 0) padding.now }
{
    padding.iter().all(|byte| *byte == 0)
}
