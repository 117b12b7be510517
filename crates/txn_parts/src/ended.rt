//! How a transfer ended.
ghost use Rattle.std.specs.Prelude.{◌≡◌};
ghost use Rattle.txn_parts.specs.Holdings.{release_at};

use crate::release::Release;
use lsn_space::Lsn;
use txn_jobs::Answer;

/// How a transfer ended, and where its end record does.
#[derive(Clone, Copy, Debug)]
pub struct TransferEnd {
    pub answer: Answer,
    pub end: Lsn,
}

impl TransferEnd {
    /// With which values the accounts go back.
    pub fn release(&self) -> Release
        ensures { result ≡ release_at self.now.end self.now.answer }
    {
        match self.answer {
            Answer::Done => Release::Committed(self.end),
            Answer::Short(_) | Answer::Over(_) => Release::Unchanged,
        }
    }
}
