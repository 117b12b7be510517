//! Streams worked out by hand, and streams that are cut or changed.

use crate::pieces::read_in_pieces;
use crate::plain::{Found, read_plainly};
use std::alloc::{AllocGlobal, Global};
use std::process::Abort;
use std::test::Fail;

/// A transfer of 30 from account 0 to account 1, from LSN 4 on.
const STREAM: [u8; 59] = [
    0x41, 0x45, 0x53, 0x48, 0x49, 0x50, 0x31, 0, 0, 0, 4, 0, 0, 0, 5, //
    2, 2, 0, 0, 0, 0, 0, 1, 0xff, 0xff, 0xff, 0xe2, 0, 0, 0, 0, //
    2, 2, 0, 1, 0, 0, 0, 1, 0, 0, 0, 0x1e, 0, 0, 0, 0, //
    3, 1, 0, 1, 0, 0, 0, 1, //
    0, 0, 0, 0,
];

fn bad(offset: u64) -> Found {
    Found::Bad { offset }
}

/// The reader finds this in the bytes, whatever the pieces, and so does the plain reader.
fn finds<R: AllocGlobal + Abort>(rt: &R, bytes: &[u8], want: Found) -> Result<(), Fail> {
    for piece in [1, 7, bytes.len().max(1)] {
        let found = read_in_pieces(rt.alloc(), bytes, piece).map_err(|_| Fail::new("no memory"))?;
        assert_eq!(rt; found, want, "in pieces of {piece}: {bytes:?}");
    }
    assert_eq!(rt; read_plainly(rt.alloc(), bytes)?, want, "{bytes:?}");
    Ok(())
}

/// The reader finds what the plain reader finds.
fn agrees<R: AllocGlobal + Abort>(rt: &R, bytes: &[u8]) -> Result<(), Fail> {
    let want = read_plainly(rt.alloc(), bytes)?;
    finds(rt, bytes, want)
}

/// Two pieces, one behind the other.
fn joined(alloc: Global, front: &[u8], back: &[u8]) -> Result<Vec<u8>, Fail> {
    let mut bytes = Vec::from_slice(alloc, front)?;
    bytes.extend_from_slice(back)?;
    Ok(bytes)
}

const WHOLE: Found = Found::Whole {
    first: 4,
    frames: 1,
    units: 5,
};

const HEAD: &[u8] = b"AESHIP1\0\0\0\x09";

/// What follows the head of a stream from LSN 9 on.
const BEHIND_HEAD: &[(&[u8], Found)] = &[
    (b"", Found::Bad { offset: 11 }),
    (
        b"\0\0\0\0",
        Found::Whole {
            first: 9,
            frames: 0,
            units: 0,
        },
    ),
    (b"\0\0\0", Found::Bad { offset: 11 }),
    (b"\0\0\0\0\0", Found::Bad { offset: 15 }),
    (b"\0\x01\0\x01", Found::Bad { offset: 11 }),
    (b"\0\x01\0\0", Found::Bad { offset: 11 }),
    (b"\xff\xff\xff\xf6", Found::Bad { offset: 11 }),
    // A frame that ends within a record.
    (
        b"\0\0\0\x01\x02\x02\0\0\0\0\0\x01\0\0\0\0",
        Found::Bad { offset: 11 },
    ),
    // A record without a kind.
    (
        b"\0\0\0\x01\0\x01\0\x01\0\0\0\x01\0\0\0\0",
        Found::Bad { offset: 11 },
    ),
    // An end record alone, twice.
    (
        b"\0\0\0\x01\x03\x01\0\x01\0\0\0\x01\0\0\0\x01\x03\x01\0\x01\0\0\0\x02\0\0\0\0",
        Found::Whole {
            first: 9,
            frames: 2,
            units: 2,
        },
    ),
];

#[test]
fn streams_worked_out_by_hand(rt: HostRuntime) -> Result<(), Fail> {
    finds(&rt, &STREAM, WHOLE)?;
    finds(&rt, b"", bad(0))?;
    finds(&rt, b"AESHIP2\0\0\0\x09\0\0\0\0", bad(0))?;
    for (behind, want) in BEHIND_HEAD {
        let bytes = joined(rt.alloc(), HEAD, behind)?;
        finds(&rt, bytes.as_slice(), *want)?;
    }
    Ok(())
}

#[test]
fn a_stream_that_passes_the_last_lsn(rt: HostRuntime) -> Result<(), Fail> {
    let record = b"\0\0\0\x01\x03\x01\0\x01\0\0\0\x01\0\0\0\0";
    let last = joined(rt.alloc(), b"AESHIP1\xff\xff\xff\xfe", record)?;
    finds(
        &rt,
        last.as_slice(),
        Found::Whole {
            first: 4294967294,
            frames: 1,
            units: 1,
        },
    )?;
    let past = joined(rt.alloc(), b"AESHIP1\xff\xff\xff\xff", record)?;
    finds(&rt, past.as_slice(), bad(11))
}

#[test]
fn every_cut(rt: HostRuntime) -> Result<(), Fail> {
    for len in 0..STREAM.len() {
        let want = if len < 11 {
            bad(0)
        } else if len < 55 {
            bad(11)
        } else {
            bad(55)
        };
        finds(&rt, STREAM.as_slice().split_at(len).0, want)?;
    }
    let longer = joined(rt.alloc(), &STREAM, b"\0")?;
    finds(&rt, longer.as_slice(), bad(59))
}

#[test]
fn every_bit_flipped(rt: HostRuntime) -> Result<(), Fail> {
    for place in 0..STREAM.len() {
        for mask in [1, 2, 4, 8, 16, 32, 64, 128] {
            let mut bytes = STREAM;
            bytes[place] ^= mask;
            agrees(&rt, &bytes)?;
        }
    }
    Ok(())
}
