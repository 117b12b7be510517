//! A batch that is taken from the bytes behind an open gate.

ghost use Rattle.std.specs.Prelude.{◌≡◌, ◌++◌, ◌+◌, ◌*◌, ◌%◌, ◌<◌, ◌≤◌, List, ℕ, length, IfOk, IfSome, IfNone, IsErrOf};
ghost use Rattle.std.specs.List.{flat_map};
ghost use Rattle.std.specs.Int.{w32, to_be_bytes};
ghost use Rattle.lsn_space.specs.Unit.{unit_bytes};
ghost use Rattle.segment_file.specs.File.{IsCountedBatch, batch, AreUnits, HasNoBatch};
ghost use Rattle.segment_file.specs.Taking.{TakesBatch};

use crate::layout::MOST_UNITS;
use lsn_space::{LAST, Lsn};
use segment_head::first_unit;
use std::alloc::AllocError;

/// Why no batch was taken.
#[derive(Clone, Copy, Debug, PartialEq, Eq)]
pub enum BatchFault {
    Bad,
    NoMemory,
}

/// The number of units of the batch that the bytes begin with, their bytes, and the bytes behind them.
fn split_batch(bytes: &[u8]) -> Option<(u32, &[u8], &[u8])>
    ensures counted { IfSome result (λ b. (0 < b.0) × (b.0 ≤ MOST_UNITS) × (length b.1.now ≡ 8 * b.0)) }
    ensures whole { IfSome result (λ b. bytes.now ≡ to_be_bytes w32 b.0 ++ b.1.now ++ b.2.now) }
    ensures only { IfSome result (λ b. (units rest : List ℕ) → IsCountedBatch units
        → bytes.now ≡ batch units ++ rest → b.0 ≡ length units) }
    ensures none { IfNone result ((units rest : List ℕ) → IsCountedBatch units → bytes.now ≡ batch units ++ rest → ⊥) }
{
    let [a, b, c, d, rest @ ..] = bytes else {
        return None;
    };
    let count = u32::from_be_bytes([*a, *b, *c, *d]);
    if count == 0 || count > MOST_UNITS || rest.len() < 8 * count as usize {
        return None;
    }
    let (body, after) = rest.split_at(8 * count as usize);
    Some((count, body, after))
}

/// Adds the units that the bytes spell.
fn push_units(units: &mut Vec<u64>, body: &[u8]) -> Result<(), AllocError>
    requires { length body.now % 8 ≡ 0 }
    ensures { IfOk result (λ _. (more : List ℕ) × AreUnits more × (body.now ≡ flat_map unit_bytes more)
        × (units.new.items ≡ units.old.items ++ more)) }
{
    let mut rest = body;
    'units: while let Some((unit, after)) = first_unit(rest) {
        units.push(unit)?;
        rest = after;
    }
    Ok(())
}

/// Adds the units of the batch that the bytes begin with to those of a log that begins at that LSN, and answers the bytes
/// behind it. A batch with which the log would pass the last LSN is bad.
pub fn take_batch<'a>(
    begin: Lsn,
    units: &mut Vec<u64>,
    bytes: &'a [u8],
) -> Result<&'a [u8], BatchFault>
    ensures taken { IfOk result (λ rest. TakesBatch begin units.old.items bytes.now units.new.items rest.now) }
    ensures bad { IsErrOf result BatchFault.Bad → HasNoBatch (begin + length units.old.items) bytes.now }
{
    let Some((count, body, rest)) = split_batch(bytes) else {
        return Err(BatchFault::Bad);
    };
    let room = u64::from(LAST - begin.units());
    if units.len() as u64 + count as u64 > room {
        return Err(BatchFault::Bad);
    }
    match push_units(units, body) {
        Ok(()) => Ok(rest),
        Err(_) => Err(BatchFault::NoMemory),
    }
}
