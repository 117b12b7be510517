//! Units as the bytes that go to the disk in one piece.

ghost use Rattle.std.specs.Prelude.{◌≡◌, ◌<◌, ◌≤◌, ◌+◌, ◌++◌, ◌∷◌, ◌↔◌, [], IsTrue, take, drop, length, slice_index, vec_capacity, IfOk};
ghost use Rattle.std.specs.Int.{w32, to_be_bytes};
ghost use Rattle.lsn_space.specs.Unit.{unit_bytes};
ghost use Rattle.segment_file.specs.declared.layout.TheConstants.{HEAD};
ghost use Rattle.segment_file.specs.File.{magic};

use crate::layout::{HEAD, LAST_OF_MAGIC, MAGIC};
use lsn_space::{NoMemory, UNIT_BYTES, bytes_of};
use segment_head::first_unit;
use std::alloc::Global;
use std::marker::Model;

/// Units that go to the disk in one piece. Contracts see them, and for how many there is room.
#[derive(Drop)]
pub struct Batch {
    /// The magic bytes, four bytes for the number of units, and the units. The number is put in when the batch goes to
    /// the disk (`put_count`), so that a batch that is gathered unit by unit is written once.
    pub(crate) bytes: Vec<u8>,
    room: u32,
}

impl Model for Batch {
    ghost use Rattle.std.specs.Prelude.{drop, vec_capacity};
    ghost use Rattle.segment_file.specs.declared.layout.TheConstants.{HEAD};
    ghost use Rattle.segment_file.specs.PackedBatch.{BatchState, units_in, IsPacked};

    ghost Value = { BatchState };

    ghost view = { λ b. record { units = units_in (drop HEAD b.bytes.items); room = b.room } };

    ghost invariant = { λ b. IsPacked b.bytes.items (units_in (drop HEAD b.bytes.items)) b.room (vec_capacity b.bytes) };
}

impl Batch {
    /// No units, and room for so many.
    pub fn make(alloc: Global, units: u32) -> Result<Batch, NoMemory>
        ensures { IfOk result (λ batch. (batch.units ≡ []) × (batch.room ≡ units)) }
    {
        let bytes = head(alloc, HEAD + 2 + UNIT_BYTES * units as usize)?;
        Ok(Batch { bytes, room: units })
    }

    /// Adds a unit behind the others.
    pub fn push(&mut self, unit: u64)
        requires { length self.old.units < self.old.room }
        ensures { self.new ≡ record self.old { units = self.old.units ++ unit ∷ [] } }
    {
        put_unit(&mut self.bytes, unit);
    }

    /// Drops all units.
    pub fn clear(&mut self)
        ensures { self.new ≡ record self.old { units = [] } }
    {
        self.bytes.truncate(HEAD);
    }

    /// The number of units.
    pub fn count(&self) -> u32
        ensures { result ≡ length self.now.units }
    {
        ((self.bytes.len() - HEAD) / UNIT_BYTES) as u32
    }

    /// The unit at that index, from 0.
    pub fn at(&self, index: u32) -> u64
        requires { index < length self.now.units }
        ensures { result ≡ slice_index self.now.units index }
    {
        let rest = self
            .bytes
            .as_slice()
            .split_at(HEAD + UNIT_BYTES * index as usize)
            .1;
        match first_unit(rest) {
            Some((unit, _)) => unit,
            None => unreachable!(),
        }
    }

    /// Whether there is no room for another unit.
    pub fn is_full(&self) -> bool
        ensures { IsTrue result ↔ (self.now.room ≤ length self.now.units) }
    {
        self.room <= self.count()
    }
}

/// The magic bytes and a count of 0.
fn head(alloc: Global, capacity: usize) -> Result<Vec<u8>, NoMemory>
    requires { HEAD ≤ capacity }
    ensures bytes { IfOk result (λ bytes. bytes.items ≡ magic ++ to_be_bytes w32 0) }
    ensures capacity { IfOk result (λ bytes. capacity ≤ vec_capacity bytes) }
{
    let Ok(mut bytes) = Vec::with_capacity(alloc, capacity) else {
        return Err(NoMemory);
    };
    bytes.extend_from_slice(b"AETHER1\0\0\0\0").unwrap();
    Ok(bytes)
}

/// Writes the number of units in front of them.
pub(crate) fn put_count(bytes: &mut Vec<u8>, count: u32)
    requires { HEAD ≤ length bytes.old.items }
    ensures bytes { bytes.new.items ≡ take 7 bytes.old.items ++ to_be_bytes w32 count ++ drop HEAD bytes.old.items }
    ensures capacity { vec_capacity bytes.old ≤ vec_capacity bytes.new }
{
    bytes[MAGIC..HEAD].copy_from_slice(&count.to_be_bytes());
}

/// Writes a byte in front of the number of units.
pub(crate) fn put_before(bytes: &mut Vec<u8>, byte: u8)
    requires { HEAD ≤ length bytes.old.items }
    ensures bytes { bytes.new.items ≡ take 6 bytes.old.items ++ (byte ∷ []) ++ drop 7 bytes.old.items }
    ensures capacity { vec_capacity bytes.old ≤ vec_capacity bytes.new }
{
    bytes[LAST_OF_MAGIC..MAGIC].copy_from_slice(&[byte]);
}

/// Adds the bytes of a unit.
fn put_unit(bytes: &mut Vec<u8>, unit: u64)
    requires { length bytes.old.items + 8 ≤ vec_capacity bytes.old }
    ensures bytes { bytes.new.items ≡ bytes.old.items ++ unit_bytes unit }
    ensures capacity { vec_capacity bytes.old ≤ vec_capacity bytes.new }
{
    bytes.extend_from_slice(&bytes_of(unit)).unwrap();
}
