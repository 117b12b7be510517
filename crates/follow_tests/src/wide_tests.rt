//! What `follow` answers where a stream brings an account to the greatest balance, 4611686018427387903, or above it.

use crate::follow_tests::follows_row;
use crate::logs::{ACCOUNTS, END, GENESIS, Log, Stream};
use cli_rig::End;
use log_recovery::Why;
use std::test::Fail;

/// Account 0 with the greatest balance, and with 7 less; account 1 has 100.
const GREATEST: [u64; 4] = [
    0x0102_0000_0000_0000,
    0x3fff_ffff_ffff_ffff,
    0x0102_0001_0000_0000,
    100,
];

const SEVEN_LESS: [u64; 4] = [
    0x0102_0000_0000_0000,
    0x3fff_ffff_ffff_fff8,
    0x0102_0001_0000_0000,
    100,
];

/// 7 from account 1 to account 0, by transaction 1.
const SEVEN: [u64; 5] = [
    0x0202_0001_0000_0001,
    0xffff_fff9_0000_0000,
    0x0202_0000_0000_0001,
    0x0000_0007_0000_0000,
    0x0301_0001_0000_0001,
];

/// Account 2, of the greatest balance, and of one above it.
const THIRD: [u64; 2] = [0x0102_0002_0000_0000, 0x3fff_ffff_ffff_ffff];

const THIRD_ABOVE: [u64; 2] = [0x0102_0002_0000_0000, 0x4000_0000_0000_0000];

/// A log, the frame of a stream that it follows, the end, the accounts then, and the log that is left.
type Row = (Log, Stream, End, &'static [u8], Log);

const FULL: Log = Log {
    head: b"",
    batches: &[&GREATEST],
};

const ROWS: &[Row] = &[
    (
        Log {
            head: b"",
            batches: &[&SEVEN_LESS],
        },
        Stream {
            first: 4,
            frames: &[&SEVEN],
            rest: END,
        },
        End::Fine,
        b"lsn 9\n0 4611686018427387903\n1 93\n",
        Log {
            head: b"",
            batches: &[&SEVEN_LESS, &SEVEN],
        },
    ),
    (
        FULL,
        Stream {
            first: 4,
            frames: &[&SEVEN],
            rest: END,
        },
        End::StreamUnlawful(8, Why::Balance),
        b"",
        FULL,
    ),
    (
        ACCOUNTS,
        Stream {
            first: 4,
            frames: &[&THIRD],
            rest: END,
        },
        End::Fine,
        b"lsn 6\n0 100\n1 0\n2 4611686018427387903\n",
        Log {
            head: b"",
            batches: &[&GENESIS, &THIRD],
        },
    ),
    (
        ACCOUNTS,
        Stream {
            first: 4,
            frames: &[&THIRD_ABOVE],
            rest: END,
        },
        End::BadStream(11),
        b"",
        ACCOUNTS,
    ),
];

#[test]
fn follows_up_to_the_greatest_balance(rt: HostRuntime) -> Result<(), Fail> {
    for (log, stream, end, text, left) in ROWS {
        follows_row(&rt, *log, *stream, end, text, *left)?;
    }
    Ok(())
}
