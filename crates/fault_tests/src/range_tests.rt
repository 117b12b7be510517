//! Runs near the last transaction number.

use cli_rig::{End, Given, answers, log_of};
use std::alloc::AllocGlobal;
use std::process::Abort;
use std::sync::Wait;
use std::test::Fail;
use std::thread::Threads;
use std::time::Clock;

/// A batch of one transfer that was refused, under this number but for its last byte.
const REFUSED_TRANSFER: &[u8] = b"O\0\0\0\x01\x04\x01\0\x01\xff\xff\xff";

/// The last byte of the refused transfer's number, the script, how the run ends and what it writes.
const ROWS: &[(u8, &[u8], End, &[u8])] = &[
    (
        0xfd,
        b"pay 0 1 30\n",
        End::Fine,
        b"done 4294967294 10\nlsn 10\n0 70\n1 30\n",
    ),
    (
        0xfd,
        b"pay 0 1 30\npay 1 0 30\n",
        End::TxnEnd(4294967294, 2),
        b"",
    ),
    (0xfe, b"", End::Fine, b"lsn 5\n0 100\n1 0\n"),
    (0xfe, b"pay 0 1 30\n", End::TxnEnd(4294967295, 1), b""),
    (0xff, b"", End::TxnEnd(4294967296, 0), b""),
];

/// The run of the script over a log whose last transfer has that number.
fn runs_behind<R: Threads + Wait + Clock + Sync + AllocGlobal + Abort>(
    rt: &R,
    last: u8,
    script: &[u8],
    end: &End,
    text: &[u8],
) -> Result<(), Fail> {
    let mut log = log_of(rt, REFUSED_TRANSFER)?;
    log.extend_from_slice(&[last, 0])?;
    let given = Given {
        held: log.as_slice(),
        input: script,
        ..Given::words(&["aether", "run", "bank.log", "--workers", "1"])
    };
    answers(rt, &given, end, text)
}

#[test]
fn the_last_transaction_numbers(rt: HostRuntime) -> Result<(), Fail> {
    for (last, script, end, text) in ROWS {
        runs_behind(&rt, *last, script, end, text)?;
    }
    Ok(())
}
