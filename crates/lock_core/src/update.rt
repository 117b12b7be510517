//! What an Update says, and how many Updates a transaction may have.

ghost use Rattle.std.specs.Prelude.{◌≡◌};
ghost use Rattle.lock_core.specs.Records.{txn_of};

use log_record::{MOST_LEGS, Rec};
use lsn_space::Lsn;

/// The most Updates of a transaction: two for each leg.
pub const MOST_UPDATES: usize = 2 * MOST_LEGS as usize;

/// What an Update says: it changes an account by this delta. `prev` is the end of the account's last
/// Commit.
#[derive(Clone, Copy, Debug, PartialEq, Eq)]
pub struct Change {
    pub account: u32,
    pub delta: i32,
    pub prev: Lsn,
}

/// No change.
impl Default for Change {
    fn default() -> Change {
        Change {
            account: 0,
            delta: 0,
            prev: Lsn::new(0),
        }
    }
}

/// The transaction of a record; a Genesis has none, which is written as 0.
pub fn txn_of(rec: &Rec) -> u32
    ensures { result ≡ txn_of rec.now }
{
    match rec {
        Rec::Genesis { .. } => 0,
        Rec::Update { txn, .. } => *txn,
        Rec::Commit { txn, .. } => *txn,
        Rec::Short { txn, .. } => *txn,
        Rec::Over { txn, .. } => *txn,
        Rec::Note { txn, .. } => *txn,
    }
}
