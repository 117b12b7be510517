//! Jobs with notes, which a worker inserts.
ghost use Rattle.std.specs.Prelude.{◌≡◌, ◌≤◌, ◌+◌, IfOk, IfSome};
ghost use Rattle.log_record.specs.Spelling.{IsTxn};
ghost use Rattle.log_table.specs.Seats.{IsOf, view_of};
ghost use Rattle.ring_buffer.specs.Calls.{HasReserved};
ghost use Rattle.test_rig.specs.NotedJobs.{AreNoteUnits, IsNotedJob, MayInsert};
ghost use Rattle.test_rig.specs.Tables.{KeepsStanding};

use lock_core::{Job, Leg, Legs, Remark};
use log_record::{Rec, Text, Units, spell};
use log_table::{LogTable, Seat};
use lsn_space::Lsn;
use ring_buffer::{Range, Refused, insert_alone, place_alone};
use schedule_hook::{Gate, OpenGate, Place};

/// A job of one leg between the two accounts, with this note.
pub fn noted_job(note: &[u8]) -> Option<Job>
    ensures { IfSome result IsNotedJob }
{
    let remark = Remark::new(note)?;
    let mut legs = Legs::new();
    legs.push(Leg::from((0, 1, 30)));
    Some(Job {
        legs,
        note: Some(remark),
    })
}

/// The units of the job's note.
pub fn note_units(number: u32, job: &Job) -> Units
    requires number { IsTxn number }
    requires job { IsNotedJob job.now }
    ensures { AreNoteUnits number job.now result }
{
    let Some(remark) = &job.note else {
        unreachable!()
    };
    spell(&Rec::Note {
        txn: number,
        text: Text::from_bytes(remark.as_slice()),
    })
}

/// Takes the job, and reserves for its note, which has these units. None: another worker was faster.
pub fn place_note(
    table: &LogTable,
    seat: &mut Seat,
    number: u32,
    job: &Job,
    units: &Units,
) -> Result<Option<Range>, Refused>
    requires worker { MayInsert table.now number seat.old }
    requires accounts { table.now.accounts ≡ 2 }
    requires job { IsNotedJob job.now }
    requires units { AreNoteUnits number job.now units.now }
    ensures own { IsOf table.now seat.new }
    ensures reserved { IfOk result (λ o. IfSome o (λ range. HasReserved range units.now (view_of seat.new))) }
{
    table.take_job(seat, number, job);
    place_alone(table, seat, units.as_slice().len() as u32)
}

/// Takes the job, and inserts its note.
pub fn insert_note<G: Gate>(
    table: &LogTable,
    seat: &mut Seat,
    number: u32,
    job: &Job,
    gate: &G,
) -> Result<Lsn, Refused>
    requires no_slots { table.now.slots ≡ 0 }
    requires worker { MayInsert table.now number seat.old }
    requires next { IsTxn (number + 1) }
    requires accounts { table.now.accounts ≡ 2 }
    requires job { IsNotedJob job.now }
    ensures worker { MayInsert table.now (number + 1) seat.new }
    ensures standing { KeepsStanding seat.old seat.new }
{
    table.take_job(seat, number, job);
    gate.at(seat.worker(), Place::JobTaken);
    insert_alone(table, seat, &note_units(number, job), gate)
}

/// Takes so many jobs with this note, from this number on, and inserts their notes; answers how many
/// were inserted, and where the last of them starts.
pub fn insert_all(
    table: &LogTable,
    seat: &mut Seat,
    first: u32,
    times: u32,
    job: &Job,
) -> (u32, Lsn)
    requires no_slots { table.now.slots ≡ 0 }
    requires worker { MayInsert table.now first seat.old }
    requires few { (first ≤ 1000) × (times ≤ 1000) }
    requires accounts { table.now.accounts ≡ 2 }
    requires job { IsNotedJob job.now }
    ensures worker { MayInsert table.now (first + times) seat.new }
    ensures standing { KeepsStanding seat.old seat.new }
    ensures count { result.0 ≤ times }
{
    let mut done = 0;
    let mut last = Lsn::new(0);
    for i in 0..times {
        if let Ok(at) = insert_note(table, seat, first + i, job, &OpenGate) {
            done += 1;
            last = at;
        }
    }
    (done, last)
}
