//! Logs and streams, as batches and frames of units.

use lsn_space::bytes_of;
use std::alloc::{AllocError, AllocGlobal};

/// Accounts 0 and 1, of balances 100 and 0.
pub(crate) const GENESIS: [u64; 4] = [0x0102_0000_0000_0000, 100, 0x0102_0001_0000_0000, 0];

/// 30 from account 0 to account 1, by transaction 1.
pub(crate) const THERE: [u64; 5] = [
    0x0202_0000_0000_0001,
    0xffff_ffe2_0000_0000,
    0x0202_0001_0000_0001,
    0x0000_001e_0000_0000,
    0x0301_0001_0000_0001,
];

/// The same 30 back, by transaction 2.
pub(crate) const BACK: [u64; 5] = [
    0x0202_0001_0000_0002,
    0xffff_ffe2_0000_0009,
    0x0202_0000_0000_0002,
    0x0000_001e_0000_0009,
    0x0301_0001_0000_0002,
];

/// The first transfer and then a Commit of its transaction, which has ended.
pub(crate) const ENDED: [u64; 6] = [
    0x0202_0000_0000_0001,
    0xffff_ffe2_0000_0000,
    0x0202_0001_0000_0001,
    0x0000_001e_0000_0000,
    0x0301_0001_0000_0001,
    0x0301_0001_0000_0001,
];

/// The same with a unit behind it that is no record.
pub(crate) const ENDED_AND_NONE: [u64; 7] = [
    0x0202_0000_0000_0001,
    0xffff_ffe2_0000_0000,
    0x0202_0001_0000_0001,
    0x0000_001e_0000_0000,
    0x0301_0001_0000_0001,
    0x0301_0001_0000_0001,
    0,
];

/// The first transfer and the first of the two units of an Update.
pub(crate) const WITHIN: [u64; 6] = [
    0x0202_0000_0000_0001,
    0xffff_ffe2_0000_0000,
    0x0202_0001_0000_0001,
    0x0000_001e_0000_0000,
    0x0301_0001_0000_0001,
    0x0202_0000_0000_0002,
];

/// An update of an account that isn't there.
pub(crate) const NO_ACCOUNT: [u64; 2] = [0x0202_0007_0000_0001, 0xffff_ffe2_0000_0000];

/// An update that names 4 as the last commit of its account, which has none.
pub(crate) const WRONG_PREDECESSOR: [u64; 2] = [0x0202_0000_0000_0001, 0xffff_ffe2_0000_0004];

/// A log: its head or, where that is empty, the magic bytes of the first format; and the batches behind it.
#[derive(Clone, Copy)]
pub(crate) struct Log {
    pub head: &'static [u8],
    pub batches: &'static [&'static [u64]],
}

/// Two accounts.
pub(crate) const ACCOUNTS: Log = Log {
    head: b"",
    batches: &[&GENESIS],
};

/// The accounts and a transfer.
pub(crate) const ONE_TRANSFER: Log = Log {
    head: b"",
    batches: &[&GENESIS, &THERE],
};

/// The accounts, a transfer and one back.
pub(crate) const BOTH: Log = Log {
    head: b"",
    batches: &[&GENESIS, &THERE, &BACK],
};

/// What `cut` leaves of one transfer: the list begins at 9, transaction 1 was the last, and the accounts have 70 and 30, each last changed at 9.
pub(crate) const CUT_HEAD: &[u8] =
    b"OAETHER2\0\0\0\x09\0\0\0\x01\0\0\0\x02\0\0\0\0\0\0\0\x46\0\0\0\x09\0\0\0\0\0\0\0\x1e\0\0\0\x09";

pub(crate) const CUT: Log = Log {
    head: CUT_HEAD,
    batches: &[],
};

/// The same, and the transfer back.
pub(crate) const CUT_AND_BACK: Log = Log {
    head: CUT_HEAD,
    batches: &[&BACK],
};

/// One transfer behind a head with the accounts.
pub(crate) const UPGRADED: Log = Log {
    head: b"OAETHER2\0\0\0\x04\0\0\0\0\0\0\0\x02\0\0\0\0\0\0\0\x64\0\0\0\0\0\0\0\0\0\0\0\0\0\0\0\0",
    batches: &[&THERE],
};

/// A list that begins at 0 behind a head, with two accounts.
pub(crate) const FROM_0: Log = Log {
    head: b"OAETHER2\0\0\0\0\0\0\0\0\0\0\0\x02\0\0\0\0\0\0\0\x05\0\0\0\0\0\0\0\0\0\0\0\0\0\0\0\0",
    batches: &[],
};

/// What stands before a list that begins 5 units before the last LSN.
const LATE_HEAD: &[u8] =
    b"OAETHER2\xff\xff\xff\xfa\0\0\0\0\0\0\0\x02\0\0\0\0\0\0\0\x64\0\0\0\0\0\0\0\0\0\0\0\0\0\0\0\0";

pub(crate) const LATE: Log = Log {
    head: LATE_HEAD,
    batches: &[],
};

/// The same, up to the last LSN.
pub(crate) const FULL: Log = Log {
    head: LATE_HEAD,
    batches: &[&THERE],
};

/// A list that begins 4 units before the last LSN.
pub(crate) const LATER: Log = Log {
    head: b"OAETHER2\xff\xff\xff\xfb\0\0\0\0\0\0\0\x02\0\0\0\0\0\0\0\x64\0\0\0\0\0\0\0\0\0\0\0\0\0\0\0\0",
    batches: &[],
};

/// An unlawful record behind the accounts.
pub(crate) const UNLAWFUL: Log = Log {
    head: b"",
    batches: &[&GENESIS, &WRONG_PREDECESSOR],
};

/// No log.
pub(crate) const TEXT: Log = Log {
    head: b"text",
    batches: &[],
};

/// A stream: the LSN in its head, its frames, and what stands behind them, as an end frame.
#[derive(Clone, Copy)]
pub(crate) struct Stream {
    pub first: u32,
    pub frames: &'static [&'static [u64]],
    pub rest: &'static [u8],
}

/// The count of the end frame.
pub(crate) const END: &[u8] = b"\0\0\0\0";

/// The first transfer.
pub(crate) const SHIPPED: Stream = Stream {
    first: 4,
    frames: &[&THERE],
    rest: END,
};

/// The end of a list that ends at 9, where nothing is shipped.
pub(crate) const NONE_FROM_9: Stream = Stream {
    first: 9,
    frames: &[],
    rest: END,
};

/// The transfer back, of a log of each format.
pub(crate) const SHIPPED_BACK: Stream = Stream {
    first: 9,
    frames: &[&BACK],
    rest: END,
};

/// Adds a count and so many units.
pub(crate) fn push_units(bytes: &mut Vec<u8>, units: &[u64]) -> Result<(), AllocError> {
    let count = u32::try_from(units.len()).unwrap_or(0);
    bytes.extend_from_slice(&count.to_be_bytes())?;
    for unit in units {
        bytes.extend_from_slice(&bytes_of(*unit))?;
    }
    Ok(())
}

/// The bytes of a log of these batches behind a head or, where that is empty, the magic bytes.
pub(crate) fn file_of<R: AllocGlobal>(
    rt: &R,
    head: &[u8],
    batches: &[&[u64]],
) -> Result<Vec<u8>, AllocError> {
    let mut bytes = Vec::from_slice(rt.alloc(), head)?;
    for (i, units) in batches.iter().enumerate() {
        bytes.push(b'O')?;
        if i == 0 && head.is_empty() {
            bytes.extend_from_slice(b"AETHER1")?;
        }
        push_units(&mut bytes, units)?;
    }
    bytes.push(0)?;
    Ok(bytes)
}

/// The bytes of a log.
pub(crate) fn log_of<R: AllocGlobal>(rt: &R, log: Log) -> Result<Vec<u8>, AllocError> {
    file_of(rt, log.head, log.batches)
}

/// The bytes of a stream.
pub(crate) fn stream_of<R: AllocGlobal>(rt: &R, stream: Stream) -> Result<Vec<u8>, AllocError> {
    let mut bytes = Vec::from_slice(rt.alloc(), b"AESHIP1")?;
    bytes.extend_from_slice(&stream.first.to_be_bytes())?;
    for units in stream.frames {
        push_units(&mut bytes, units)?;
    }
    bytes.extend_from_slice(stream.rest)?;
    Ok(bytes)
}
