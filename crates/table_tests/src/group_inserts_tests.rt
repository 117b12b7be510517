//! Two threads that meet: one loses its exchange of the tail and joins a group; a leader goes on once another has joined.
ghost use Rattle.std.specs.Prelude.{◌≡◌, ◌≤◌};
ghost use Rattle.log_table.specs.HiredWorkers.{HasHired};
ghost use Rattle.test_rig.specs.NotedJobs.{IsNotedJob, MayInsert};

use crate::found::{is_at, is_count, is_so};
use crate::group::{hear_piece, join_for, lead_if_first, put_piece};
use crate::meeting::{have_met, wait_for};
use consol_array::{Released, insert};
use lock_core::Job;
use log_table::{LogTable, Seat};
use lsn_space::Lsn;
use schedule_hook::{Gate, Place};
use std::process::Abort;
use std::sync::Wait;
use std::sync::atomic::{AtomicBool, AtomicU32, Ordering};
use std::test::Fail;
use std::thread::{Threads, join};
use test_rig::{note_units, noted_job, table_with_slots, worker};

/// How many have come by, and whether one gave up waiting for the others.
#[derive(Drop)]
struct Meeting {
    come: AtomicU32,
    gave_up: AtomicBool,
}

impl Meeting {
    fn new() -> Meeting {
        Meeting {
            come: AtomicU32::new(0),
            gave_up: AtomicBool::new(false),
        }
    }

    /// Another has come by.
    fn pass(&self) {
        self.come.fetch_add(1, Ordering::SeqCst);
    }

    /// Waits until so many have come by, or notes that it gave up.
    fn hold(&self, wanted: u32) {
        wait_for(&self.come, wanted, &self.gave_up);
    }

    /// Nobody gave up.
    fn was_held(&self, rt: &impl Abort) {
        have_met(rt, &self.gave_up);
    }
}

/// Holds both until both have looked, so that one exchange of the tail is lost; counts those that joined a group.
#[derive(Drop)]
struct BothLook {
    looked: Meeting,
    joined: Meeting,
}

impl Gate for BothLook {
    fn at(&self, _worker: u32, place: Place) {
        match place {
            Place::Looked => {
                self.looked.pass();
                self.looked.hold(2);
            }
            Place::Joined => self.joined.pass(),
            _ => {}
        }
    }
}

/// Takes the job of this number, and inserts its note; answers where it begins.
fn inserts<R: Wait, G: Gate>(
    rt: &R,
    table: &LogTable,
    mut seat: Seat,
    number: u32,
    job: &Job,
    gate: &G,
) -> Option<Lsn>
    requires worker { MayInsert table.now number seat }
    requires accounts { table.now.accounts ≡ 2 }
    requires job { IsNotedJob job.now }
{
    table.take_job(&mut seat, number, job);
    insert(rt, table, &mut seat, &note_units(number, job), gate).ok()
}

/// Both insert at once, in a table with one slot; answers where their records begin.
fn insert_both<R: Threads + Wait + Sync, G: Gate + Sync>(
    rt: &R,
    table: &LogTable,
    flusher_seat: &mut Seat,
    jobs: (&Job, &Job),
    gate: &G,
) -> (Option<Lsn>, Option<Lsn>)
    requires flusher_seat { HasHired table.now 0 flusher_seat.old }
    requires accounts { table.now.accounts ≡ 2 }
    requires first { IsNotedJob jobs.0.now }
    requires second { IsNotedJob jobs.1.now }
{
    let one = worker(table, flusher_seat, 0, 1);
    let two = worker(table, flusher_seat, 1, 2);
    let (first, second) = jobs;
    join(
        rt,
        move ||
            requires { MayInsert table.now 1 one × (table.now.accounts ≡ 2) × IsNotedJob first.now }
        { inserts(rt, table, one, 1, first, gate) },
        move ||
            requires { MayInsert table.now 2 two × (table.now.accounts ≡ 2) × IsNotedJob second.now }
        { inserts(rt, table, two, 2, second, gate) },
    )
}

#[test]
fn who_loses_the_exchange_joins(rt: HostRuntime) -> Result<(), Fail> {
    let gate = BothLook {
        looked: Meeting::new(),
        joined: Meeting::new(),
    };
    let (Some(first), Some(second)) = (noted_job(b"aaaaaaaa"), noted_job(b"bbbbbbbbb")) else {
        return Err(Fail::new("no job"));
    };
    let (table, mut flusher_seat) = table_with_slots(rt.alloc(), (100, 0), 4, 1)?;
    let found = insert_both(&rt, &table, &mut flusher_seat, (&first, &second), &gate);
    let these = (Some(Lsn::new(4)), Some(Lsn::new(6)));
    let those = (Some(Lsn::new(7)), Some(Lsn::new(4)));
    assert!(&rt; found == these || found == those, "{found:?}");
    is_count(&rt, "joins", gate.joined.come.load(Ordering::SeqCst), 1);
    gate.looked.was_held(&rt);
    Ok(())
}

/// Joins once so many have joined, and goes on once so many have; answers where the record begins, and whether the worker was the last of
/// its group to release.
fn shares<R: Wait>(
    rt: &R,
    table: &LogTable,
    mut seat: Seat,
    number: u32,
    job: &Job,
    meeting: &Meeting,
) -> Option<Released>
    requires worker { MayInsert table.now number seat }
    requires slots { 1 ≤ table.now.slots }
    requires accounts { table.now.accounts ≡ 2 }
    requires job { IsNotedJob job.now }
{
    let units = note_units(number, job);
    meeting.hold(number - 1);
    let Ok(joined) = join_for(table, &mut seat, number, job, &units) else {
        return None;
    };
    meeting.pass();
    meeting.hold(2);
    lead_if_first(table, &mut seat, &joined, &units);
    let Ok(member) = hear_piece(rt, table, &mut seat, joined, &units) else {
        return None;
    };
    Some(put_piece(table, &mut seat, member, &units))
}

/// Both share one group: the first leads it once the second has joined.
fn share_both<R: Threads + Wait + Sync>(
    rt: &R,
    table: &LogTable,
    flusher_seat: &mut Seat,
    jobs: (&Job, &Job),
    meeting: &Meeting,
) -> (Option<Released>, Option<Released>)
    requires flusher_seat { HasHired table.now 0 flusher_seat.old }
    requires slots { 1 ≤ table.now.slots }
    requires accounts { table.now.accounts ≡ 2 }
    requires first { IsNotedJob jobs.0.now }
    requires second { IsNotedJob jobs.1.now }
    ensures flusher_seat { HasHired table.now 2 flusher_seat.new }
{
    let one = worker(table, flusher_seat, 0, 1);
    let two = worker(table, flusher_seat, 1, 2);
    let (first, second) = jobs;
    join(
        rt,
        move ||
            requires { MayInsert table.now 1 one × (1 ≤ table.now.slots) × (table.now.accounts ≡ 2) × IsNotedJob first.now }
        { shares(rt, table, one, 1, first, meeting) },
        move ||
            requires { MayInsert table.now 2 two × (1 ≤ table.now.slots) × (table.now.accounts ≡ 2) × IsNotedJob second.now }
        { shares(rt, table, two, 2, second, meeting) },
    )
}

#[test]
fn a_leader_is_held_until_another_has_joined(rt: HostRuntime) -> Result<(), Fail> {
    let meeting = Meeting::new();
    let (Some(first), Some(second)) = (noted_job(b"aaaaaaaa"), noted_job(b"bbbbbbbbb")) else {
        return Err(Fail::new("no job"));
    };
    let (table, mut flusher_seat) = table_with_slots(rt.alloc(), (100, 0), 4, 1)?;
    let found = share_both(&rt, &table, &mut flusher_seat, (&first, &second), &meeting);
    let (Some(ours), Some(theirs)) = found else {
        return Err(Fail::new("a worker has not joined"));
    };
    is_at(&rt, "the leader's record", ours.at, 4);
    is_at(&rt, "the other's", theirs.at, 6);
    is_so(
        &rt,
        "the leader was the last to release, or the other was",
        ours.last != theirs.last,
        true,
    );
    is_at(&rt, "tail", table.load_tail(&mut flusher_seat), 9);
    is_at(&rt, "exposed", table.load_exposed(&mut flusher_seat), 9);
    meeting.was_held(&rt);
    Ok(())
}
