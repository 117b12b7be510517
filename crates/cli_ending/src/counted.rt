//! What the program answers of transfers that were counted and not told.

ghost use Rattle.std.specs.Prelude.{◌≤◌, length};
ghost use Rattle.lsn_space.specs.declared.opening.TheConstants.{MOST_ACCOUNTS};
ghost use Rattle.cli_ending.specs.Conclusion.{HasConcluded, MayConclude, counted_text};

use crate::conclusion::{RunEnd, stopped};
use cli_shared::Detail;
use log_disk::Sink;
use run_plan::{Counts, put_summary};

/// What the program answers once so many transfers, which were counted and not told, have ended. Where nothing befell them it writes their
/// summary.
pub fn conclude_counted<K: Sink>(ended: &RunEnd, transfers: u32, out: &mut K) -> Detail
    requires stopped { MayConclude ended.now }
    requires few { length ended.now.closed.accounts.rows ≤ MOST_ACCOUNTS }
    ensures { HasConcluded K.Sink ended.now (counted_text transfers ended.now) out.old out.new result }
{
    if let Some(detail) = stopped(ended) {
        return detail;
    }
    let counts = Counts {
        transfers: transfers as u64,
        done: ended.done,
        refused: ended.refused,
        lsn: ended.closed.lsn(),
    };
    match put_summary(counts, ended.closed.accounts(), out) {
        Ok(()) => Detail::Fine,
        Err(_) => Detail::Write,
    }
}
