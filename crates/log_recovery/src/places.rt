//! The places at which the records of units begin, read one by one.

ghost use Rattle.std.specs.Prelude.{◌≡◌, ◌+◌, ◌≤◌, length, IfSome, IfNone};
ghost use Rattle.lsn_space.specs.declared.lsn.TheConstants.{LAST};
ghost use Rattle.log_recovery.specs.ListedRecords.{EndsWith, IsFront, IsRecords, IsBadRecAt};

use log_record::read;
use lsn_space::{Lsn, Opening};

/// Where a list behind this opening begins.
pub(crate) fn begin_of(opening: &Opening) -> Lsn
    ensures { result ≡ opening.now.lsn }
{
    opening.lsn
}

/// Where the rest of the units begins, of which the first stands at that LSN.
pub fn place_of(begin: Lsn, units: &[u64], rest: &[u64]) -> Lsn
    requires within { EndsWith units.now rest.now }
    requires fits { begin + length units.now ≤ LAST }
    ensures { result + length rest.now ≡ begin + length units.now }
{
    Lsn::new(begin.units() + (units.len() - rest.len()) as u32)
}

/// The first place behind a prefix of records at which no record begins, where there is one. The list begins at that LSN.
pub(crate) fn first_bad(begin: Lsn, units: &[u64], front: &[u64]) -> Option<Lsn>
    requires front { IsFront units.now front.now }
    requires fits { begin + length units.now ≤ LAST }
    ensures bad { IfSome result (IsBadRecAt begin units.now) }
    ensures none { IfNone result (IsRecords front.now) }
{
    let mut rest = front;
    'records: while !rest.is_empty() {
        let Ok((_, size)) = read(rest) else {
            return Some(place_of(begin, units, rest));
        };
        rest = rest.split_at(size).1;
    }
    None
}
