//! With which values accounts go back.
ghost use Rattle.std.specs.Prelude.{◌≡◌, ◌≤◌};
ghost use Rattle.lsn_space.specs.declared.opening.TheConstants.{MOST_BALANCE};
ghost use Rattle.txn_parts.specs.Holdings.{back_of};

use crate::taken_account::TakenAccount;
use lsn_space::Lsn;

/// With which values accounts go back.
#[derive(Clone, Copy, Debug, PartialEq, Eq)]
pub enum Release {
    /// As they were taken.
    Unchanged,
    /// With their new balances. The transfer's Commit ends there.
    Committed(Lsn),
}

impl Release {
    /// The balance and the last commit with which this account goes back.
    pub fn values(&self, holding: &TakenAccount) -> (u64, u32)
        ensures values { result ≡ back_of self.now holding.now }
        ensures fits { result.0 ≤ MOST_BALANCE }
    {
        match *self {
            Release::Unchanged => (holding.taken.balance, holding.taken.mark),
            Release::Committed(end) => (holding.balance, end.units()),
        }
    }
}
