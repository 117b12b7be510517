//! What workers share: the transfers of a script, and the queue of their places.
ghost use Rattle.std.specs.Prelude.{◌≤◌, ◌+◌, length};
ghost use Rattle.log_record.specs.declared.limits.TheConstants.{LAST_TXN};

use crate::filling::Line;
use txn_script::Script;

/// What workers share: the transfers of a script, the one at place i under the number `first` + i, and the queue of their places.
#[derive(Drop)]
pub struct Queue {
    pub(crate) script: Script,
    pub(crate) first: u64,
    pub(crate) line: Line,
    ghost some: { 1 ≤ first },
    ghost numbered: { first + length script ≤ LAST_TXN },
}
