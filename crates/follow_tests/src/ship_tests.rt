//! What `ship` answers, row by row.

use crate::calls::ships;
use crate::logs::{
    ACCOUNTS, BOTH, CUT, CUT_AND_BACK, END, FROM_0, FULL, GENESIS, Log, NONE_FROM_9, ONE_TRANSFER,
    SHIPPED, SHIPPED_BACK, Stream, TEXT, THERE, UNLAWFUL, UPGRADED, log_of, stream_of,
};
use cli_rig::End;
use log_recovery::Why;
use std::alloc::AllocGlobal;
use std::sync::Wait;
use std::test::Fail;
use std::thread::Threads;
use std::time::Clock;

/// The log of a row is shipped.
fn ships_row<R: Threads + Wait + Clock + Sync + AllocGlobal>(
    rt: &R,
    log: Log,
    words: &[&str],
    stream: Stream,
) -> Result<(), Fail> {
    let log = log_of(rt, log)?;
    let stream = stream_of(rt, stream)?;
    ships(rt, log.as_slice(), words, &End::Fine, stream.as_slice())
}

/// A log, the words that ship it, and the stream. The batches of a log don't matter: a frame has as many records as fit.
const STREAMS: &[(Log, &[&str], Stream)] = &[
    (ONE_TRANSFER, &["aether", "ship", "4"], SHIPPED),
    (UPGRADED, &["aether", "ship", "4"], SHIPPED),
    (ONE_TRANSFER, &["aether", "ship", "9"], NONE_FROM_9),
    (CUT, &["aether", "ship", "9"], NONE_FROM_9),
    (BOTH, &["aether", "ship", "9"], SHIPPED_BACK),
    (CUT_AND_BACK, &["aether", "ship", "9"], SHIPPED_BACK),
    (
        ACCOUNTS,
        &["aether", "ship", "0"],
        Stream {
            first: 0,
            frames: &[&GENESIS],
            rest: END,
        },
    ),
    (
        BOTH,
        &["aether", "ship", "8"],
        Stream {
            first: 8,
            frames: &[&[
                0x0301_0001_0000_0001,
                0x0202_0001_0000_0002,
                0xffff_ffe2_0000_0009,
                0x0202_0000_0000_0002,
                0x0000_001e_0000_0009,
                0x0301_0001_0000_0002,
            ]],
            rest: END,
        },
    ),
    (
        FROM_0,
        &["aether", "ship", "0"],
        Stream {
            first: 0,
            frames: &[],
            rest: END,
        },
    ),
    (
        FULL,
        &["aether", "ship", "4294967290"],
        Stream {
            first: 4294967290,
            frames: &[&THERE],
            rest: END,
        },
    ),
    (
        FULL,
        &["aether", "ship", "4294967295"],
        Stream {
            first: 4294967295,
            frames: &[],
            rest: END,
        },
    ),
];

#[test]
fn ships_from_each_kind_of_boundary(rt: HostRuntime) -> Result<(), Fail> {
    for (log, words, stream) in STREAMS {
        ships_row(&rt, *log, words, *stream)?;
    }
    Ok(())
}

/// A log that isn't shipped from an LSN on: that is no boundary, or the log is not a lawful one, also where the fault stands above the LSN.
const REFUSED: &[(Log, &[&str], End)] = &[
    (ONE_TRANSFER, &["aether", "ship", "5"], End::NoSuchLsn(5)),
    (ONE_TRANSFER, &["aether", "ship", "1"], End::NoSuchLsn(1)),
    (ONE_TRANSFER, &["aether", "ship", "10"], End::NoSuchLsn(10)),
    (
        ONE_TRANSFER,
        &["aether", "ship", "4294967295"],
        End::NoSuchLsn(4294967295),
    ),
    (UPGRADED, &["aether", "ship", "2"], End::NoSuchLsn(2)),
    (CUT, &["aether", "ship", "4"], End::NoSuchLsn(4)),
    (CUT, &["aether", "ship", "8"], End::NoSuchLsn(8)),
    (
        UNLAWFUL,
        &["aether", "ship", "2"],
        End::Unlawful(4, Why::Prev),
    ),
    (
        UNLAWFUL,
        &["aether", "ship", "5"],
        End::Unlawful(4, Why::Prev),
    ),
    (TEXT, &["aether", "ship", "0"], End::NotALog),
];

/// Nothing is shipped of the log of a row.
fn ships_nothing<R: Threads + Wait + Clock + Sync + AllocGlobal>(
    rt: &R,
    log: Log,
    words: &[&str],
    end: &End,
) -> Result<(), Fail> {
    let log = log_of(rt, log)?;
    ships(rt, log.as_slice(), words, end, b"")
}

#[test]
fn refuses_to_ship(rt: HostRuntime) -> Result<(), Fail> {
    for (log, words, end) in REFUSED {
        ships_nothing(&rt, *log, words, end)?;
    }
    Ok(())
}
