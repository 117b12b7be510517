//! What a worker inserted is read and sent by the flusher's seat, on one thread.
ghost use Rattle.std.specs.Prelude.{◌≡◌, ◌+◌, ◌∷◌, [], IfOk};
ghost use Rattle.log_record.specs.Spelling.{IsTxn};
ghost use Rattle.log_rule.specs.declared.view.Role.TheVariants.{Flusher};
ghost use Rattle.log_rule.specs.May.{MayLeave};
ghost use Rattle.log_table.specs.Seats.{IsOf, view_of};
ghost use Rattle.log_rule.specs.Views.{sent_to};
ghost use Rattle.test_rig.specs.NotedJobs.{IsNotedJob, MayInsert};

use crate::found::{has_answered, has_sent, is_at, is_number};
use lock_core::Job;
use log_table::{LogTable, Seat};
use lsn_space::Lsn;
use schedule_hook::OpenGate;
use std::alloc::Global;
use std::process::Abort;
use std::test::Fail;
use test_rig::{insert_note, noted_job, send_all, table_of, worker};

/// The units of the first note, of nine letters under number 1.
const FIRST: [u64; 3] = [
    0x0603_0009_0000_0001,
    0x6162_6364_6566_6768,
    0x6900_0000_0000_0000,
];

/// The units of the second note, of eight letters under number 2.
const SECOND: [u64; 2] = [0x0602_0008_0000_0002, 0x6a6b_6c6d_6e6f_7071];

/// A worker inserts the note of this number, which starts here.
fn inserts<R: Abort>(rt: &R, table: &LogTable, seat: &mut Seat, number: u32, job: &Job, at: u32)
    requires worker { MayInsert table.now number seat.old }
    requires next { IsTxn (number + 1) }
    requires no_slots { table.now.slots ≡ 0 }
    requires accounts { table.now.accounts ≡ 2 }
    requires job { IsNotedJob job.now }
    ensures worker { MayInsert table.now (number + 1) seat.new }
    ensures standing { (view_of seat.new).standing ≡ (view_of seat.old).standing }
{
    let answer = insert_note(table, seat, number, job, &OpenGate);
    has_answered(rt, number, answer, Ok(Lsn::new(at)));
}

/// The flusher's seat sends all that is exposed: these units, up to this end. Answers that end.
fn sends<R: Abort>(
    rt: &R,
    alloc: Global,
    table: &LogTable,
    flusher_seat: &mut Seat,
    from: Lsn,
    wanted: &[u64],
    end: u32,
) -> Result<Lsn, Fail>
    requires flusher_seat { IsOf table.now flusher_seat.old }
    requires flusher { (view_of flusher_seat.old).standing.role ≡ Flusher }
    requires rests { (view_of flusher_seat.old).sending.read ≡ [] }
    requires from { sent_to (view_of flusher_seat.old) ≡ from }
    ensures flusher_seat { IfOk result (λ to. IsOf table.now flusher_seat.new) }
    ensures standing { IfOk result (λ to. (view_of flusher_seat.new).standing ≡ (view_of flusher_seat.old).standing) }
    ensures rests { IfOk result (λ to. (view_of flusher_seat.new).sending.read ≡ []) }
    ensures to { IfOk result (λ to. sent_to (view_of flusher_seat.new) ≡ to) }
{
    let (units, to) = send_all(alloc, table, flusher_seat, from)?;
    has_sent(rt, units.as_slice(), to, wanted, end);
    Ok(to)
}

/// The one worker that was hired leaves, and the log ends here.
fn ends_at<R: Abort>(rt: &R, table: LogTable, mut flusher_seat: Seat, mut seat: Seat, end: u32)
    requires worker { IsOf table seat }
    requires leaves { MayLeave (view_of seat) }
    requires number { (view_of seat).standing.worker ≡ 0 }
    requires flusher_seat { IsOf table flusher_seat }
    requires flusher { (view_of flusher_seat).standing.role ≡ Flusher }
    requires made { (view_of flusher_seat).standing.made ≡ 0 ∷ [] }
{
    table.leave(&mut seat);
    is_number(rt, "workers", table.load_crew(&mut flusher_seat), 0);
    is_at(rt, "exposed", table.load_exposed(&mut flusher_seat), end);
    table.merge(&mut flusher_seat, seat);
    is_at(rt, "end", table.close(flusher_seat).lsn(), end);
}

#[test]
fn the_flusher_reads_what_was_inserted(rt: HostRuntime) -> Result<(), Fail> {
    let alloc = rt.alloc();
    let (table, mut flusher_seat) = table_of(alloc, (100, 0), 1022)?;
    let mut seat = worker(&table, &mut flusher_seat, 0, 1);
    is_number(&rt, "workers", table.load_crew(&mut flusher_seat), 1);
    let (Some(first), Some(second)) = (noted_job(b"abcdefghi"), noted_job(b"jklmnopq")) else {
        return Err(Fail::new("no job"));
    };
    let start = Lsn::new(1022);
    inserts(&rt, &table, &mut seat, 1, &first, 1022);
    let to = sends(
        &rt,
        alloc,
        &table,
        &mut flusher_seat,
        start,
        FIRST.as_slice(),
        1025,
    )?;
    is_at(&rt, "durable", table.load_durable(&mut seat), 1025);
    inserts(&rt, &table, &mut seat, 2, &second, 1025);
    let to = sends(
        &rt,
        alloc,
        &table,
        &mut flusher_seat,
        to,
        SECOND.as_slice(),
        1027,
    )?;
    sends(&rt, alloc, &table, &mut flusher_seat, to, &[], 1027)?;
    ends_at(&rt, table, flusher_seat, seat, 1027);
    Ok(())
}
