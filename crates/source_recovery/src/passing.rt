//! How the records of units are passed, one by one, while a record may have no more units than are left.

ghost use Rattle.std.specs.Prelude.{◌≡◌, ◌<◌, ◌≤◌, ◌+◌, ℕ, List, length, drop};
ghost use Rattle.log_record.specs.declared.rec.Rec.{Rec};
ghost use Rattle.log_record.specs.Spelling.{BeginsWith};
ghost use Rattle.lsn_space.specs.Opening.{Opening};
ghost use Rattle.lsn_space.specs.declared.lsn.TheConstants.{LAST};
ghost use Rattle.log_recovery.specs.ListedRecords.{EndsWith, IsFront};
ghost use Rattle.source_recovery.specs.Passing.{CanTake, IsShort, StopsAt};

use crate::asked::TakesAsked;
use lock_core::{JudgeFault, Why};
use log_record::{Rec, read_into};
use log_recovery::place_of;
use lsn_space::Lsn;

/// Why no more records are taken.
pub(crate) enum Stop {
    /// A record may have more units than are left.
    Few,

    /// No record begins at this LSN.
    Bad { lsn: Lsn },

    /// The record that starts at this LSN is the first that fails a test, and this is the first test that it fails.
    Failed { lsn: Lsn, why: Why },

    NoMemory,
}

/// Leaves out so many units at the front.
pub(crate) fn leave_out(units: &mut Vec<u64>, count: usize)
    requires { count ≤ length units.old.items }
    ensures { units.new.items ≡ drop count units.old.items }
{
    let len = units.len();
    units.copy_within(count..len, 0);
    units.truncate(len - count);
}

/// Reads records while at least so many units are left, up to a place where none begins.
pub(crate) fn read_records(units: &[u64], least: usize) -> &[u64]
    requires { 0 < least }
    ensures front { IsFront units.now result.now }
    ensures bad { least ≤ length result.now → (rec : Rec) → BeginsWith result.now rec → ⊥ }
{
    let mut rest = units;
    let mut rec = Rec::Commit { txn: 1, legs: 1 };
    'records: while rest.len() >= least {
        let Ok(size) = read_into(rest, &mut rec) else {
            return rest;
        };
        rest = rest.split_at(size).1;
    }
    rest
}

/// Takes records while at least so many units are left. The first of the units stands at that LSN.
pub(crate) fn take_records<'a, T: TakesAsked>(
    taker: &mut T,
    first: Lsn,
    units: &'a [u64],
    least: usize,
) -> (&'a [u64], Stop)
    requires taken { (asked : ℕ) × (opening : Opening) × (all : List ℕ) × CanTake (T.has_taken asked) opening all units.now first taker.old }
    requires some { 0 < least }
    ensures ends { EndsWith units.now result.0.now }
    ensures few { IsShort least result.0.now result.1 }
    ensures stops { (asked : ℕ) (opening : Opening) (all : List ℕ) → CanTake (T.has_taken asked) opening all units.now first taker.old
        → StopsAt (T.has_taken asked) least opening all result.0.now taker.new result.1 }
{
    let mut rest = units;
    let mut rec = Rec::Commit { txn: 1, legs: 1 };
    'records: while rest.len() >= least {
        let lsn = place_of(first, units, rest);
        let Ok(size) = read_into(rest, &mut rec) else {
            return (rest, Stop::Bad { lsn });
        };
        rest = rest.split_at(size).1;
        match taker.take(lsn, &rec) {
            Ok(()) => {}
            Err(JudgeFault::NoMemory) => return (rest, Stop::NoMemory),
            Err(JudgeFault::Why(why)) => return (rest, Stop::Failed { lsn, why }),
        }
    }
    (rest, Stop::Few)
}
