//! How the transfers of a run ended, and what the program answers then.

ghost use Rattle.std.specs.Prelude.{IfSome, IfNone};
ghost use Rattle.cli_ending.specs.Conclusion.{AreWhole, HasConcluded, IsFirstLogEnd, MayConclude, NoneStopped, NothingStopped, StoppedAs, closed_text};

use cli_shared::Detail;
use commit_pipeline::DaemonFault;
use log_disk::Sink;
use log_recovery::put_accounts;
use log_table::Closed;
use lsn_space::Lsn;
use txn_runner::{Cause, Worked};

/// How a run ended: what befell the daemon, how many transfers it counted as done and as refused, how each worker's work ended,
/// and what the table held.
#[derive(Drop)]
pub struct RunEnd {
    pub fault: Option<DaemonFault>,
    pub done: u64,
    pub refused: u64,
    pub ends: Vec<Worked>,
    pub closed: Closed,
}

/// What the program answers once the transfers have ended. Where nothing befell them it writes the accounts text.
pub fn conclude<K: Sink>(ended: &RunEnd, out: &mut K) -> Detail
    requires { MayConclude ended.now }
    ensures { HasConcluded K.Sink ended.now (closed_text ended.now) out.old out.new result }
{
    if let Some(why) = stopped(ended) {
        return why;
    }
    match put_accounts(ended.closed.lsn(), ended.closed.accounts(), out) {
        Ok(()) => Detail::Fine,
        Err(_) => Detail::Write,
    }
}

/// Why the transfers were stopped, if they were: what befell the daemon, or else the end of the log.
pub fn stopped(ended: &RunEnd) -> Option<Detail>
    requires { MayConclude ended.now }
    ensures some { IfSome result (StoppedAs ended.now) }
    ensures none { IfNone result (NothingStopped ended.now) }
{
    match ended.fault {
        Some(DaemonFault::DiskFault) => Some(Detail::Disk),
        Some(DaemonFault::WriteFault) => Some(Detail::Write),
        None => {
            let (tail, total) = first_log_end(ended.ends.as_slice())?;
            Some(Detail::LogEnd { tail, total })
        }
    }
}

/// The numbers of the lowest worker whose record did not fit in the log. Without a fault of the daemon there is no other
/// reason to stop.
fn first_log_end(ends: &[Worked]) -> Option<(Lsn, u32)>
    requires { NoneStopped ends.now }
    ensures some { IfSome result (λ end. IsFirstLogEnd ends.now end.0 end.1) }
    ensures none { IfNone result (AreWhole ends.now) }
{
    'ends: for worked in ends {
        match worked {
            Worked::All => {}
            Worked::Cut(Cause::LogEnd { tail, total }) => return Some((*tail, *total)),
            Worked::Cut(Cause::Stop(_)) => unreachable!(),
        }
    }
    None
}
