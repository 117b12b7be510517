//! Why the program ends, and the status of each reason.

ghost use Rattle.std.specs.Prelude.{◌≡◌};
ghost use Rattle.cli_shared.specs.Answers.{recover_detail, status_of};

use log_recovery::{RecoverFault, Why};
use lsn_space::Lsn;

/// Why the program ends.
#[derive(Clone, Copy, Debug, PartialEq, Eq)]
pub enum Detail {
    /// All output is written.
    Fine,

    NoMemory,

    /// The command line is none of the program's.
    Usage,

    /// This line of the input, counted from 1, is the first outside its grammar.
    Script { line: u64 },

    /// Standard input could not be read.
    Read,

    /// Standard output could not be written.
    Write,

    /// A file could not be opened, read, written or synced.
    Disk,

    /// The bytes don't begin as a log.
    NotALog,

    /// In a log of the second format what stands before its list is cut, or a number in it is out of its range.
    BadSnapshot,

    /// No batch stands behind the open gate at this byte.
    BadBatch { offset: u64 },

    /// The units from this LSN on begin with no record.
    BadRec { lsn: Lsn },

    /// The record that starts at this LSN is the first that fails a test, and this is the first that it fails.
    Unlawful { lsn: Lsn, why: Why },

    /// So many units do not fit between this tail and the last LSN: those of a transfer's next record, or of its group.
    LogEnd { tail: Lsn, total: u32 },

    /// The script has so many transfers that, counted from the first number on, the number that would follow theirs is above the last one.
    TxnEnd { first: u64, count: u64 },

    /// A log is there already: the file begins with an open gate.
    Exists,

    /// The part of the stream that begins at this byte is the first that is cut or outside the grammar.
    BadStream { offset: u64 },

    /// The log ends at `have`, and the stream begins at another LSN, `from`.
    Gap { have: Lsn, from: Lsn },

    /// At this LSN no record of the list begins, and the list doesn't end there.
    NoSuchLsn { lsn: Lsn },

    /// The record that would stand at this LSN is the first of the stream that fails a test, and this is the first that it fails.
    StreamUnlawful { lsn: Lsn, why: Why },

    /// The list has no such account.
    NoAccount { account: u32 },
}

impl Detail {
    /// The exit status.
    pub fn status(&self) -> u8
        ensures { result ≡ status_of self.now }
    {
        match self {
            Detail::Fine => 0,
            Detail::NoMemory => 1,
            Detail::Usage => 2,
            Detail::Script { .. } => 3,
            Detail::Read => 4,
            Detail::Write => 5,
            Detail::Disk => 6,
            Detail::NotALog
            | Detail::BadSnapshot
            | Detail::BadBatch { .. }
            | Detail::BadRec { .. }
            | Detail::Unlawful { .. } => 7,
            Detail::LogEnd { .. } => 8,
            Detail::TxnEnd { .. } => 9,
            Detail::Exists => 10,
            Detail::BadStream { .. } => 11,
            Detail::Gap { .. } => 12,
            Detail::NoSuchLsn { .. } => 13,
            Detail::StreamUnlawful { .. } => 14,
            Detail::NoAccount { .. } => 15,
        }
    }
}

/// How the program ends: its exit status, and why.
#[derive(Clone, Copy, Debug, PartialEq, Eq)]
pub struct Report {
    pub status: u8,
    pub detail: Detail,
}

impl Report {
    /// The report of an answer, with its status.
    pub fn of(detail: Detail) -> Report
        ensures status { result.status ≡ status_of detail }
        ensures detail { result.detail ≡ detail }
    {
        let status = detail.status();
        Report { status, detail }
    }
}

/// How the program ends where nothing is recovered from bytes.
pub fn detail_of(fault: RecoverFault) -> Detail
    ensures { result ≡ recover_detail fault }
{
    match fault {
        RecoverFault::NotALog => Detail::NotALog,
        RecoverFault::BadSnapshot => Detail::BadSnapshot,
        RecoverFault::BadBatch { offset } => Detail::BadBatch { offset },
        RecoverFault::BadRec { lsn } => Detail::BadRec { lsn },
        RecoverFault::Unlawful { lsn, why } => Detail::Unlawful { lsn, why },
        RecoverFault::NoMemory => Detail::NoMemory,
    }
}
