//! The records of one transaction, as the plain program finds them.

ghost use Rattle.std.specs.Prelude.{◌≡◌, ◌||◌, ◌+◌, ◌≤◌, ◌++◌, length, reverse};
ghost use Rattle.lock_core.specs.Records.{ends, changes_of};
ghost use Rattle.lock_core.specs.declared.update.TheConstants.{MOST_UPDATES};
ghost use Rattle.lock_core.specs.Transactions.{own_records_of, updates_of, has_end};

use crate::update::{Change, MOST_UPDATES, txn_of};
use arrayvec::ArrayVec;
use log_record::{Placed, Rec};

/// The records of one transaction in a list.
#[derive(Drop)]
pub struct Own {
    /// Whether one of them ends the transaction.
    pub is_ended: bool,

    /// What its Updates change, the newest first.
    pub changes: ArrayVec<Change, MOST_UPDATES>,
}

impl Own {
    fn take(&mut self, rec: &Rec)
        requires { length self.old.changes.items + length (changes_of rec.now) ≤ MOST_UPDATES }
        ensures ended { self.new.is_ended ≡ (ends rec.now || self.old.is_ended) }
        ensures changes { self.new.changes.items ≡ changes_of rec.now ++ self.old.changes.items }
    {
        match rec {
            Rec::Update {
                account,
                delta,
                prev,
                ..
            } => {
                let change = Change {
                    account: *account,
                    delta: *delta,
                    prev: *prev,
                };
                self.changes.insert(0, change);
            }
            Rec::Commit { .. } | Rec::Short { .. } | Rec::Over { .. } => self.is_ended = true,
            Rec::Genesis { .. } | Rec::Note { .. } => {}
        }
    }
}

/// The records of the transaction among these entries, which have at most `MOST_UPDATES` Updates of it.
pub fn own_records(entries: &[Placed], txn: u32) -> Own
    requires { length (updates_of txn (reverse entries.now)) ≤ MOST_UPDATES }
    ensures ended { result.is_ended ≡ has_end (own_records_of txn (reverse entries.now)) }
    ensures changes { result.changes.items ≡ updates_of txn (reverse entries.now) }
{
    let mut own = Own {
        is_ended: false,
        changes: ArrayVec::new(),
    };
    for entry in entries {
        if txn_of(&entry.rec) == txn {
            own.take(&entry.rec);
        }
    }
    own
}
