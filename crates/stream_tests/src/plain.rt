//! A plain reader of the grammar, of a whole input at once.

use log_record::read;
use segment_head::first_unit;
use std::alloc::{AllocError, Global};

/// What bytes are.
#[derive(Clone, Copy, Debug, PartialEq, Eq)]
pub enum Found {
    /// A whole stream of so many units in so many frames, the first of which begins at this LSN.
    Whole { first: u32, frames: u64, units: u64 },

    /// No stream: the first bad part is at this place.
    Bad { offset: u64 },
}

/// The number in front of the bytes, and the rest.
fn number(bytes: &[u8]) -> Option<(u32, &[u8])> {
    match bytes {
        [a, b, c, d, rest @ ..] => Some((u32::from_be_bytes([*a, *b, *c, *d]), rest)),
        _ => None,
    }
}

/// The LSN of the head in front of the bytes, and the rest.
fn head(bytes: &[u8]) -> Option<(u32, &[u8])> {
    match bytes {
        [b'A', b'E', b'S', b'H', b'I', b'P', b'1', rest @ ..] => number(rest),
        _ => None,
    }
}

/// The units of the bytes, eight to a unit.
fn units_of(alloc: Global, bytes: &[u8]) -> Result<Vec<u64>, AllocError> {
    let mut units = Vec::new(alloc);
    let mut rest = bytes;
    for _ in 0..bytes.len() {
        let Some((unit, after)) = first_unit(rest) else {
            break;
        };
        units.push(unit)?;
        rest = after;
    }
    Ok(units)
}

/// Whether the units are whole records.
fn are_records(units: &[u64]) -> bool {
    let mut rest = units;
    for _ in 0..units.len() {
        let Ok((_, size)) = read(rest) else {
            return rest.is_empty();
        };
        let Some((_, after)) = rest.split_at_checked(size) else {
            return false;
        };
        rest = after;
    }
    rest.is_empty()
}

/// What follows a frame of so many units, if the bytes begin with one.
fn frame(alloc: Global, count: u32, bytes: &[u8]) -> Result<Option<&[u8]>, AllocError> {
    if count > 65536 {
        return Ok(None);
    }
    let Some((body, rest)) = bytes.split_at_checked(8 * count as usize) else {
        return Ok(None);
    };
    let units = units_of(alloc, body)?;
    if are_records(units.as_slice()) {
        Ok(Some(rest))
    } else {
        Ok(None)
    }
}

/// What the bytes are.
pub fn read_plainly(alloc: Global, bytes: &[u8]) -> Result<Found, AllocError> {
    let Some((first, mut rest)) = head(bytes) else {
        return Ok(Found::Bad { offset: 0 });
    };
    let mut units: u64 = 0;
    for frames in 0..bytes.len() as u64 {
        let offset = (bytes.len() as u64).wrapping_sub(rest.len() as u64);
        let Some((count, body)) = number(rest) else {
            return Ok(Found::Bad { offset });
        };
        if count == 0 && body.is_empty() {
            return Ok(Found::Whole {
                first,
                frames,
                units,
            });
        }
        if count == 0 {
            return Ok(Found::Bad {
                offset: offset.wrapping_add(4),
            });
        }
        let all = units.wrapping_add(u64::from(count));
        let Some(after) = frame(alloc, count, body)? else {
            return Ok(Found::Bad { offset });
        };
        if all.wrapping_add(u64::from(first)) > 4294967295 {
            return Ok(Found::Bad { offset });
        }
        units = all;
        rest = after;
    }
    Ok(Found::Bad { offset: 0 })
}
