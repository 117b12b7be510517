//! The records that units spell, taken one by one as they are read.

ghost use Rattle.std.specs.Prelude.{◌≡◌, ◌⊎◌, ◌+◌, ◌≤◌, [], length, IfOk, IfErr};
ghost use Rattle.lsn_space.specs.Opening.{IsSnapshot};
ghost use Rattle.lsn_space.specs.declared.lsn.TheConstants.{LAST};
ghost use Rattle.lock_core.specs.Taking.{HasJudged};
ghost use Rattle.log_recovery.specs.JudgedUnits.{FailsBefore, HasTakenUnits, IsUnitsFaultOf};

use crate::places::{begin_of, first_bad, place_of};
use lock_core::{Judge, JudgeFault, TakesRecords, Why};
use log_record::read;
use lsn_space::{Lsn, Opening};
use std::alloc::Global;

/// Why units hold no lawful list of records.
#[derive(Clone, Copy, Debug, PartialEq, Eq)]
pub enum UnitsFault {
    /// Records lead to this LSN, and the units from there on begin with none.
    BadRec { lsn: Lsn },

    /// The record that starts at this LSN is the first that fails a test, and this is the first test that it fails.
    Unlawful { lsn: Lsn, why: Why },

    NoMemory,
}

/// The fault of units whose records up to this rest end with the first that fails a test: this one, unless the rest is no
/// list of records.
fn unlawful(opening: &Opening, units: &[u64], rest: &[u64], lsn: Lsn, why: Why) -> UnitsFault
    requires fails { FailsBefore opening.now units.now rest.now lsn why }
    requires fits { opening.now.lsn + length units.now ≤ LAST }
    ensures fault { IsUnitsFaultOf opening.now units.now result }
    ensures memory { result ≡ UnitsFault.NoMemory → ⊥ }
{
    match first_bad(begin_of(opening), units, rest) {
        Some(lsn) => UnitsFault::BadRec { lsn },
        None => UnitsFault::Unlawful { lsn, why },
    }
}

/// What has taken the records that the units spell, behind this opening. A place at which no record begins hides a record that fails a
/// test, wherever it is.
pub fn taken_units<T: TakesRecords>(
    alloc: Global,
    opening: &Opening,
    units: &[u64],
) -> Result<T, UnitsFault>
    requires opening { (opening.now.accounts ≡ []) ⊎ IsSnapshot opening.now }
    requires fits { opening.now.lsn + length units.now ≤ LAST }
    ensures found { IfOk result (HasTakenUnits T.has_taken opening.now units.now) }
    ensures fault { IfErr result (IsUnitsFaultOf opening.now units.now) }
{
    let Ok(mut taker) = T::after(alloc, opening) else {
        return Err(UnitsFault::NoMemory);
    };
    let begin = begin_of(opening);
    let mut rest = units;
    'records: while !rest.is_empty() {
        let lsn = place_of(begin, units, rest);
        let Ok((rec, size)) = read(rest) else {
            return Err(UnitsFault::BadRec { lsn });
        };
        rest = rest.split_at(size).1;
        match taker.take(lsn, &rec) {
            Ok(()) => {}
            Err(JudgeFault::NoMemory) => return Err(UnitsFault::NoMemory),
            Err(JudgeFault::Why(why)) => return Err(unlawful(opening, units, rest, lsn, why)),
        }
    }
    Ok(taker)
}

/// A judge that has taken the records that the units spell, behind this opening.
pub fn judge_of_units(alloc: Global, opening: &Opening, units: &[u64]) -> Result<Judge, UnitsFault>
    requires opening { (opening.now.accounts ≡ []) ⊎ IsSnapshot opening.now }
    requires fits { opening.now.lsn + length units.now ≤ LAST }
    ensures found { IfOk result (HasTakenUnits HasJudged opening.now units.now) }
    ensures fault { IfErr result (IsUnitsFaultOf opening.now units.now) }
{
    taken_units(alloc, opening, units)
}
