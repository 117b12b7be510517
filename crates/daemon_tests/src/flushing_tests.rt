//! A ring that is full until it is flushed.
ghost use Rattle.std.specs.Prelude.{◌≡◌};
ghost use Rattle.log_table.specs.HiredWorkers.{HasHired};
ghost use Rattle.log_table.specs.Seats.{key_of};
ghost use Rattle.test_rig.specs.NotedJobs.{IsNotedJob, MayInsert};

use flusher::Flushed;
use lock_core::Job;
use log_disk::OpenGate;
use log_table::{LogTable, Seat};
use lsn_space::{Lsn, place};
use memory_disk::MemoryDisk;
use ring_buffer::Refused;
use run_rig::flusher_on;
use std::alloc::Global;
use std::process::Abort;
use std::test::Fail;
use test_rig::{insert_all, insert_note, noted_job, table_of, worker};

/// The insert of the note of this number answered so.
fn has_answered(
    rt: &impl Abort,
    number: u32,
    answer: Result<Lsn, Refused>,
    wanted: Result<Lsn, Refused>,
) {
    assert_eq!(rt; answer, wanted, "note {number}");
}

/// A flush did this.
fn has_flushed(rt: &impl Abort, did: Flushed, wanted: Flushed) {
    assert_eq!(rt; did, wanted);
}

/// Where the notes begin, and where they end once the ring is full.
const ENDS: (u32, u32) = (4, 1028);

/// A worker fills the ring with notes of two units, and then finds no room.
fn fills<R: Abort>(rt: &R, table: &LogTable, seat: &mut Seat, job: &Job)
    requires worker { MayInsert table.now 1 seat.old }
    requires no_slots { table.now.slots ≡ 0 }
    requires accounts { table.now.accounts ≡ 2 }
    requires job { IsNotedJob job.now }
    ensures worker { MayInsert table.now 514 seat.new }
{
    let (inserted, last) = insert_all(table, seat, 1, 512, job);
    assert!(rt; inserted == 512, "{inserted} notes are in the ring");
    has_answered(rt, 512, Ok(last), Ok(Lsn::new(1026)));
    let full = Refused::RingFull {
        tail: Lsn::new(ENDS.1),
        durable: Lsn::new(ENDS.0),
        total: 2,
    };
    let answer = insert_note(table, seat, 513, job, &OpenGate);
    has_answered(rt, 513, answer, Err(full));
}

/// A flush sends the whole ring to the disk, and the next finds nothing.
fn empties<R: Abort>(
    rt: &R,
    alloc: Global,
    table: &LogTable,
    flusher_seat: Seat,
) -> Result<(), Fail>
    requires flusher_seat { HasHired table.now 1 flusher_seat }
    requires start { (key_of table.now).start ≡ 4 }
    requires ring { table.now.ring ≡ 1024 }
{
    let mut disk = MemoryDisk::make(alloc, &[], 20_000, &[])?;
    let Some(mut flusher) = flusher_on(alloc, (100, 0), table, flusher_seat, &mut disk) else {
        return Err(Fail::new("no memory"));
    };
    let (from, to) = (Lsn::new(ENDS.0), Lsn::new(ENDS.1));
    has_flushed(rt, flusher.flush()?, Flushed::To { from, to });
    has_flushed(rt, flusher.flush()?, Flushed::Nothing { at: to });
    Ok(())
}

/// The worker's next note starts where the flush ended, at the ring's fourth place.
fn goes_on<R: Abort>(rt: &R, table: &LogTable, seat: &mut Seat, job: &Job)
    requires worker { MayInsert table.now 514 seat.old }
    requires no_slots { table.now.slots ≡ 0 }
    requires accounts { table.now.accounts ≡ 2 }
    requires ring { table.now.ring ≡ 1024 }
    requires job { IsNotedJob job.now }
{
    let to = Lsn::new(ENDS.1);
    let answer = insert_note(table, seat, 514, job, &OpenGate);
    has_answered(rt, 514, answer, Ok(to));
    assert!(rt; place(to, table.ring()) == 4);
}

#[test]
fn ring_full_until_flushed(rt: HostRuntime) -> Result<(), Fail> {
    let alloc = rt.alloc();
    let (table, mut flusher_seat) = table_of(alloc, (100, 0), 4)?;
    let mut seat = worker(&table, &mut flusher_seat, 0, 1);
    let Some(job) = noted_job(b"aaaaaaaa") else {
        return Err(Fail::new("no job"));
    };
    fills(&rt, &table, &mut seat, &job);
    empties(&rt, alloc, &table, flusher_seat)?;
    goes_on(&rt, &table, &mut seat, &job);
    Ok(())
}
