//! Inserts: where their records start, both ends of the room for a record, and two threads of which one is slower than the other.
use crate::found::{has_answered, has_sent, is_number};
use crate::meeting::{Places, have_met, insert_both, wait_for};
use lsn_space::{LAST, Lsn};
use ring_buffer::Refused;
use schedule_hook::{Gate, OpenGate, Place};
use std::process::Abort;
use std::sync::atomic::{AtomicBool, AtomicU32, Ordering};
use std::test::Fail;
use test_rig::{insert_all, insert_note, noted_job, table_of, worker};

#[test]
fn inserts_answer_their_lsns(rt: HostRuntime) -> Result<(), Fail> {
    let (table, mut flusher_seat) = table_of(rt.alloc(), (100, 0), 4)?;
    let mut seat = worker(&table, &mut flusher_seat, 0, 1);
    let Some(job) = noted_job(b"aaaaaaaa") else {
        return Err(Fail::new("no job"));
    };
    let first = insert_note(&table, &mut seat, 1, &job, &OpenGate);
    let second = insert_note(&table, &mut seat, 2, &job, &OpenGate);
    let third = insert_note(&table, &mut seat, 3, &job, &OpenGate);
    has_answered(&rt, 1, first, Ok(Lsn::new(4)));
    has_answered(&rt, 2, second, Ok(Lsn::new(6)));
    has_answered(&rt, 3, third, Ok(Lsn::new(8)));
    Ok(())
}

#[test]
fn refuses_units_past_the_last_lsn(rt: HostRuntime) -> Result<(), Fail> {
    let (table, mut flusher_seat) = table_of(rt.alloc(), (100, 0), LAST - 1)?;
    let mut seat = worker(&table, &mut flusher_seat, 0, 1);
    let Some(job) = noted_job(b"aaaaaaaa") else {
        return Err(Fail::new("no job"));
    };
    let answer = insert_note(&table, &mut seat, 1, &job, &OpenGate);
    let tail = Lsn::new(LAST - 1);
    has_answered(&rt, 1, answer, Err(Refused::LogEnd { tail, total: 2 }));
    Ok(())
}

#[test]
fn refuses_units_past_the_ring(rt: HostRuntime) -> Result<(), Fail> {
    let (table, mut flusher_seat) = table_of(rt.alloc(), (100, 0), 4)?;
    let mut seat = worker(&table, &mut flusher_seat, 0, 1);
    let Some(job) = noted_job(b"aaaaaaaa") else {
        return Err(Fail::new("no job"));
    };
    let (inserted, last) = insert_all(&table, &mut seat, 1, 512, &job);
    assert!(rt; inserted == 512, "{inserted} notes are in the ring");
    has_answered(&rt, 512, Ok(last), Ok(Lsn::new(1026)));
    let answer = insert_note(&table, &mut seat, 513, &job, &OpenGate);
    let full = Refused::RingFull {
        tail: Lsn::new(1028),
        durable: Lsn::new(4),
        total: 2,
    };
    has_answered(&rt, 513, answer, Err(full));
    Ok(())
}

fn places(first: u32, second: u32, end: u32) -> Places {
    (Some(Lsn::new(first)), Some(Lsn::new(second)), Lsn::new(end))
}

/// The records have these places, or those.
fn are_at(rt: &impl Abort, found: Places, these: Places, those: Places) {
    assert!(rt; found == these || found == those, "{found:?}");
}

/// Holds both until both have looked, so that one exchange of the tail is lost.
#[derive(Drop)]
struct BothLook {
    looked: AtomicU32,
    gave_up: AtomicBool,
}

impl Gate for BothLook {
    fn at(&self, _worker: u32, place: Place) {
        if place == Place::Looked {
            self.looked.fetch_add(1, Ordering::SeqCst);
            wait_for(&self.looked, 2, &self.gave_up);
        }
    }
}

#[test]
fn a_lost_exchange_is_made_again(rt: HostRuntime) -> Result<(), Fail> {
    let gate = BothLook {
        looked: AtomicU32::new(0),
        gave_up: AtomicBool::new(false),
    };
    let (Some(first), Some(second)) = (noted_job(b"aaaaaaaa"), noted_job(b"bbbbbbbbb")) else {
        return Err(Fail::new("no job"));
    };
    let found = insert_both(&rt, rt.alloc(), &first, &second, &gate)?;
    are_at(&rt, found.places, places(4, 6, 9), places(7, 4, 9));
    let looked = gate.looked.load(Ordering::SeqCst);
    assert!(rt; looked == 3, "one worker looked twice: {looked}");
    have_met(&rt, &gate.gave_up);
    Ok(())
}

/// Holds worker 1 before its insert until worker 0 has reserved, and worker 0 there until worker 1 has
/// exposed what it could; counts those that marked their range.
#[derive(Drop)]
struct FirstIsHeld {
    placed: AtomicU32,
    exposed: AtomicU32,
    marked: AtomicU32,
    gave_up: AtomicBool,
}

impl Gate for FirstIsHeld {
    fn at(&self, worker: u32, place: Place) {
        match (worker, place) {
            (1, Place::JobTaken) => wait_for(&self.placed, 1, &self.gave_up),
            (0, Place::Placed) => {
                self.placed.store(1, Ordering::SeqCst);
                wait_for(&self.exposed, 1, &self.gave_up);
            }
            (1, Place::Exposed) => self.exposed.store(1, Ordering::SeqCst),
            (_, Place::Marked) => {
                self.marked.fetch_add(1, Ordering::SeqCst);
            }
            _ => {}
        }
    }
}

/// The units of both notes, of eight letters under number 1 and of nine under number 2.
pub(crate) const BOTH: [u64; 5] = [
    0x0602_0008_0000_0001,
    0x6161_6161_6161_6161,
    0x0603_0009_0000_0002,
    0x6262_6262_6262_6262,
    0x6200_0000_0000_0000,
];

#[test]
fn a_worker_goes_on_while_one_before_it_is_held(rt: HostRuntime) -> Result<(), Fail> {
    let gate = FirstIsHeld {
        placed: AtomicU32::new(0),
        exposed: AtomicU32::new(0),
        marked: AtomicU32::new(0),
        gave_up: AtomicBool::new(false),
    };
    let (Some(first), Some(second)) = (noted_job(b"aaaaaaaa"), noted_job(b"bbbbbbbbb")) else {
        return Err(Fail::new("no job"));
    };
    let found = insert_both(&rt, rt.alloc(), &first, &second, &gate)?;
    have_met(&rt, &gate.gave_up);
    are_at(&rt, found.places, places(4, 6, 9), places(4, 6, 9));
    has_sent(&rt, found.units.as_slice(), found.exposed, &BOTH, 9);
    is_number(
        &rt,
        "marks",
        u64::from(gate.marked.load(Ordering::SeqCst)),
        2,
    );
    Ok(())
}
