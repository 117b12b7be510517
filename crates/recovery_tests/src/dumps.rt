//! Dumps of whole images.

ghost use Rattle.std.specs.Prelude.{List, IfOk};
ghost use Rattle.log_record.specs.declared.rec.Rec.{Rec};
ghost use Rattle.log_recovery.specs.Recovery.{HasRecords};

use crate::answers::{Fault, is_fault};
use crate::images::{GENESIS, TRANSFER, image};
use log_recovery::{Listed, listed, put_dump};
use memory_disk::MemorySink;
use std::alloc::{AllocGlobal, Global};
use std::process::Abort;
use std::test::Fail;

const TRANSFER_DUMP: &[u8] =
    b"0 genesis 0 100\n2 genesis 1 0\n4 update 1 0 -30 0\n6 update 1 1 30 0\n8 commit 1 1\nlsn 9\n";

fn list_of(alloc: Global, batches: &[&[u64]]) -> Result<Listed, Fail>
    ensures { IfOk result (λ list. (records : List Rec) × HasRecords list records) }
{
    let bytes = image(alloc, batches)?;
    match listed(alloc, bytes.as_slice()) {
        Ok(list) => Ok(list),
        Err(_) => Err(Fail::new("no list")),
    }
}

fn sink_of(alloc: Global, room: usize, failing: &[u64]) -> Result<MemorySink, Fail> {
    MemorySink::make(alloc, room, failing).map_err(|_| Fail::new("no memory"))
}

/// This is the text that was written of these batches.
fn is_written(rt: &impl Abort, batches: &[&[u64]], found: &[u8], text: &[u8]) {
    assert_eq!(rt; found, text, "{batches:?}");
}

/// The dump of these batches, in a sink with so much room, of which these writes fail, is this text, whole or not.
fn writes<R: AllocGlobal + Abort>(
    rt: &R,
    batches: &[&[u64]],
    room: usize,
    failing: &[u64],
    text: &[u8],
    whole: bool,
) -> Result<(), Fail> {
    let list = list_of(rt.alloc(), batches)?;
    let mut out = sink_of(rt.alloc(), room, failing)?;
    let is_whole = put_dump(&list, &mut out).is_ok();
    assert!(rt; is_whole == whole, "{text:?}");
    is_written(rt, batches, out.bytes(), text);
    Ok(())
}

/// The dump of these batches is this text.
fn dumps<R: AllocGlobal + Abort>(rt: &R, batches: &[&[u64]], text: &[u8]) -> Result<(), Fail> {
    writes(rt, batches, 300, &[], text, true)
}

const DUMPED: &[(&[&[u64]], &[u8])] = &[
    (&[&GENESIS], b"0 genesis 0 100\n2 genesis 1 0\nlsn 4\n"),
    (&[&GENESIS, &TRANSFER], TRANSFER_DUMP),
    (
        &[
            &GENESIS,
            &[0x0602_0002_0000_0001, 0x6869_0000_0000_0000],
            &TRANSFER,
        ],
        b"0 genesis 0 100\n2 genesis 1 0\n4 note 1 hi\n6 update 1 0 -30 0\n8 update 1 1 30 0\n10 commit 1 1\nlsn 11\n",
    ),
    (
        &[&[0x0401_0001_ffff_ffff, 0x0501_0008_0000_0002]],
        b"0 short 4294967295 1\n1 over 2 8\nlsn 2\n",
    ),
    // The ends of the fields' ranges.
    (
        &[&[0x0202_0fff_ffff_ffff, 0x8000_0001_ffff_ffff]],
        b"0 update 4294967295 4095 -2147483647 4294967295\nlsn 2\n",
    ),
    (
        &[&[0x0202_0000_0000_0001, 0x7fff_ffff_0000_0000]],
        b"0 update 1 0 2147483647 0\nlsn 2\n",
    ),
    (
        &[&[0x0102_0fff_0000_0000, 0x3fff_ffff_ffff_ffff]],
        b"0 genesis 4095 4611686018427387903\nlsn 2\n",
    ),
    // Records that aren't lawful: an update that names another predecessor than its account's.
    (
        &[&GENESIS, &[0x0202_0000_0000_0001, 0xffff_ffe2_0000_0004]],
        b"0 genesis 0 100\n2 genesis 1 0\n4 update 1 0 -30 4\nlsn 6\n",
    ),
];

#[test]
fn dumps_each_kind_of_record(rt: HostRuntime) -> Result<(), Fail> {
    for (batches, text) in DUMPED {
        dumps(&rt, batches, text)?;
    }
    // A record may lie across two batches.
    let (front, back) = TRANSFER.split_at(1);
    dumps(&rt, &[&GENESIS, front, back], TRANSFER_DUMP)
}

/// The dump of the longest note.
fn longest_dump(alloc: Global) -> Result<Vec<u8>, Fail> {
    let mut text = Vec::from_slice(alloc, b"0 note 4294967295 ")?;
    text.extend_from_slice(&[b'~'; 200])?;
    text.extend_from_slice(b"\nlsn 26\n")?;
    Ok(text)
}

#[test]
fn dumps_the_longest_note(rt: HostRuntime) -> Result<(), Fail> {
    let mut units = [0x7e7e_7e7e_7e7e_7e7e; 26];
    units[0] = 0x061a_00c8_ffff_ffff;
    let text = longest_dump(rt.alloc())?;
    dumps(&rt, &[&units], text.as_slice())
}

const FRONTS: &[(usize, &[u64], &[u8])] = &[
    (300, &[1], b""),
    (20, &[], b"0 genesis 0 100\n2 ge"),
    (35, &[], b"0 genesis 0 100\n2 genesis 1 0\nlsn 4"),
];

#[test]
fn leaves_a_front_at_a_fault(rt: HostRuntime) -> Result<(), Fail> {
    for (room, failing, text) in FRONTS {
        writes(&rt, &[&GENESIS], *room, failing, text, false)?;
    }
    Ok(())
}

/// These bytes hold no list, by this fault.
fn has_no_list<R: AllocGlobal + Abort>(rt: &R, bytes: &[u8], fault: &Fault) {
    is_fault(rt, "list", bytes, listed(rt.alloc(), bytes).err(), fault);
}

#[test]
fn names_what_holds_no_list(rt: HostRuntime) -> Result<(), Fail> {
    let bytes = image(rt.alloc(), &[&[0x0102_0001_0000_0000, 0, 0]])?;
    has_no_list(&rt, bytes.as_slice(), &Fault::BadRec(2));
    has_no_list(&rt, b"OAETHER1\0\0\0\x01\x01\x02\0\0", &Fault::BadBatch(0));
    has_no_list(&rt, b"O", &Fault::NotALog);
    Ok(())
}

#[test]
fn tells_where_the_file_goes_on(rt: HostRuntime) -> Result<(), Fail> {
    let list = list_of(rt.alloc(), &[&GENESIS, &TRANSFER])?;
    let tail = &list.tail;
    let found = (tail.at, tail.next.units(), list.units.as_slice().len());
    assert_eq!(rt; found, (89, 9, 9));
    Ok(())
}
