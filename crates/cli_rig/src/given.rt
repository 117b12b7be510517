//! What the program is given, and how it may end.

use cli_shared::Detail;
use log_recovery::Why;
use lsn_space::Lsn;

/// Two accounts, with balances 100 and 0.
pub const GENESIS_LOG: &[u8] =
    b"OAETHER1\0\0\0\x04\x01\x02\0\0\0\0\0\0\0\0\0\0\0\0\0\x64\x01\x02\0\x01\0\0\0\0\0\0\0\0\0\0\0\0\0";

/// The words that make a log.
pub const NEW: &[&str] = &["aether", "new", "bank.log"];

/// What the program is given: its words, a disk of these bytes with so much room for writes and syncs, and an input; and which
/// calls of the disk, the source and the sink fail.
#[derive(Clone, Copy)]
pub struct Given<'a> {
    pub words: &'a [&'a str],
    pub held: &'a [u8],
    pub room: usize,
    pub input: &'a [u8],
    pub disk_failing: &'a [u64],
    pub source_failing: &'a [u64],
    pub sink_failing: &'a [u64],
}

impl<'a> Given<'a> {
    /// Words alone: the disk is empty, with room for a few transfers, the input too, and nothing fails.
    pub fn words(words: &'a [&'a str]) -> Given<'a> {
        Given {
            words,
            held: b"",
            room: 4000,
            input: b"",
            disk_failing: &[],
            source_failing: &[],
            sink_failing: &[],
        }
    }
}

/// How the program ends, in numbers that a constant can hold.
pub enum End {
    Fine,
    NoMemory,
    Usage,
    Script(u64),
    Read,
    Write,
    Disk,
    NotALog,
    BadSnapshot,
    BadBatch(u64),
    BadRec(u32),
    Unlawful(u32, Why),
    LogEnd(u32, u32),
    TxnEnd(u64, u64),
    Exists,
    BadStream(u64),
    Gap(u32, u32),
    NoSuchLsn(u32),
    StreamUnlawful(u32, Why),
    NoAccount(u32),
}

impl End {
    pub fn detail(&self) -> Detail {
        match *self {
            End::Fine => Detail::Fine,
            End::NoMemory => Detail::NoMemory,
            End::Usage => Detail::Usage,
            End::Script(line) => Detail::Script { line },
            End::Read => Detail::Read,
            End::Write => Detail::Write,
            End::Disk => Detail::Disk,
            End::NotALog => Detail::NotALog,
            End::BadSnapshot => Detail::BadSnapshot,
            End::BadBatch(offset) => Detail::BadBatch { offset },
            End::BadRec(lsn) => Detail::BadRec { lsn: Lsn::new(lsn) },
            End::Unlawful(lsn, why) => Detail::Unlawful {
                lsn: Lsn::new(lsn),
                why,
            },
            End::LogEnd(tail, total) => Detail::LogEnd {
                tail: Lsn::new(tail),
                total,
            },
            End::TxnEnd(first, count) => Detail::TxnEnd { first, count },
            End::Exists => Detail::Exists,
            End::BadStream(offset) => Detail::BadStream { offset },
            End::Gap(have, from) => Detail::Gap {
                have: Lsn::new(have),
                from: Lsn::new(from),
            },
            End::NoSuchLsn(lsn) => Detail::NoSuchLsn { lsn: Lsn::new(lsn) },
            End::StreamUnlawful(lsn, why) => Detail::StreamUnlawful {
                lsn: Lsn::new(lsn),
                why,
            },
            End::NoAccount(account) => Detail::NoAccount { account },
        }
    }
}
