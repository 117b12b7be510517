//! Which records of the run's transfers the list of a log's bytes has.
use log_record::{Rec, read};
use std::alloc::Global;

/// Of how many transfers the records are counted, from 1 on.
pub(crate) const TRANSFERS: u32 = 2500;

/// The records of each: a note, an update of either account, and an end.
pub(crate) const RECORDS: u32 = 4 * TRANSFERS;

/// Where a record of this kind of the transfer is marked.
fn mark_of(txn: u32, kind: u32) -> Option<usize> {
    if txn == 0 || txn > TRANSFERS || kind > 3 {
        return None;
    }
    Some((4 * (txn - 1) + kind) as usize)
}

/// Where the record is marked, where it is one of a transfer.
fn place_of(rec: &Rec) -> Option<usize> {
    match rec {
        Rec::Note { txn, .. } => mark_of(*txn, 0),
        Rec::Update { txn, delta, .. } => mark_of(*txn, if *delta < 0 { 1 } else { 2 }),
        Rec::Commit { txn, .. } => mark_of(*txn, 3),
        _ => None,
    }
}

/// Marks the record. False: it was marked before.
fn mark(marks: &mut Vec<bool>, place: usize) -> bool {
    if place >= marks.len() || marks[place] {
        return false;
    }
    marks[place] = true;
    true
}

/// No record is marked.
fn no_marks(alloc: Global) -> Option<Vec<bool>> {
    let mut marks = Vec::new(alloc);
    for _ in 0..RECORDS {
        marks.push(false).ok()?;
    }
    Some(marks)
}

/// How many records of transfers stand in these units, and how many of them a second time.
pub(crate) fn count_records(alloc: Global, units: &[u64]) -> Option<(u32, u32)> {
    let mut marks = no_marks(alloc)?;
    let mut once: u32 = 0;
    let mut again: u32 = 0;
    let mut rest = units;
    for _ in 0..units.len() {
        let Ok((rec, size)) = read(rest) else {
            break;
        };
        let Some((_, behind)) = rest.split_at_checked(size) else {
            break;
        };
        rest = behind;
        if let Some(place) = place_of(&rec) {
            if mark(&mut marks, place) {
                once = once.saturating_add(1);
            } else {
                again = again.saturating_add(1);
            }
        }
    }
    Some((once, again))
}
