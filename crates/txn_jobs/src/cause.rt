//! Why a worker left a transfer unfinished, and how a worker ended.
ghost use Rattle.std.specs.Prelude.{◌≡◌, ◌≢◌, IfErr, OnOk};

use lsn_space::Lsn;

/// Why a worker left a transfer unfinished, or did not see that it is durable.
#[derive(Clone, Copy, Debug, PartialEq, Eq)]
pub enum Cause {
    /// The daemon has stopped, and this is the stop word.
    Stop(u64),
    /// So many units do not fit between this tail and the last LSN: a record's, or those of a group that it was one of.
    LogEnd { tail: Lsn, total: u32 },
}

/// How a worker ended.
#[derive(Clone, Copy, Debug, PartialEq, Eq)]
pub enum Worked {
    /// All transfers that it took have their end record, and no more were left.
    All,
    /// The transfer that it took last was cut off.
    Cut(Cause),
}

/// A worker goes on where the stop word is 0. Err: the daemon has stopped.
#[inline(always)]
pub fn unless_stopped(word: u64) -> Result<(), Cause>
    ensures runs { OnOk result (word ≡ 0) }
    ensures stopped { IfErr result (λ cause. (cause ≡ Cause.Stop word) × (word ≢ 0)) }
{
    if word != 0 {
        return Err(Cause::Stop(word));
    }
    Ok(())
}
