//! A worker is hired, and joins the group at its slot.
ghost use Rattle.std.specs.Prelude.{◌≡◌, ◌+◌, ◌%◌, ◌<◌, OnOk};
ghost use Rattle.log_record.specs.Spelling.{IsTxn};
ghost use Rattle.log_table.specs.HiredWorkers.{HasHired};
ghost use Rattle.log_rule.specs.SlotViews.{step_joining};
ghost use Rattle.slot_rig.specs.Shares.{IsJoiner, IsMember};
ghost use Rattle.test_rig.specs.NotedJobs.{AreNoteUnits, IsNotedJob};

use crate::share::Share;
use lock_core::Job;
use log_table::{LogTable, Seat};
use slot_word::SlotWord;

/// Why a worker did not join.
#[derive(Clone, Copy, Debug, PartialEq, Eq)]
pub enum NotJoined {
    /// The group has no room for the record.
    Full,
    /// The slot had another state.
    Found(SlotWord),
}

/// The worker of the next number, whose first job may have this transaction number or one above it.
pub fn joiner(table: &LogTable, flusher_seat: &mut Seat, worker: u32, number: u32) -> Seat
    requires flusher_seat { HasHired table.now worker flusher_seat.old }
    requires number { IsTxn number }
    ensures flusher_seat { HasHired table.now (worker + 1) flusher_seat.new }
    ensures joiner { IsJoiner table.now worker number result }
{
    table.hire(flusher_seat, worker)
}

/// Takes the job of this number, and joins the group at the worker's slot for its note.
pub fn join_for_note(
    table: &LogTable,
    seat: &mut Seat,
    share: &Share,
    number: u32,
    job: &Job,
) -> Result<(), NotJoined>
    requires joiner { IsJoiner table.now share.now.worker number seat.old }
    requires slot { share.now.slot < table.now.slots }
    requires own_slot { share.now.slot ≡ share.now.worker % table.now.slots }
    requires accounts { table.now.accounts ≡ 2 }
    requires job { IsNotedJob job.now }
    requires units { AreNoteUnits number job.now share.now.units }
    ensures member { OnOk result (IsMember table.now share.now (step_joining share.now.offset) seat.new) }
{
    table.take_job(seat, number, job);
    let n = share.units.as_slice().len() as u32;
    let most = table.ring() / 4;
    if share.offset > most || share.offset + n > most {
        return Err(NotJoined::Full);
    }
    let from = SlotWord::fresh(share.offset);
    match table.join_slot(seat, share.slot, from, from.joined(n)) {
        Ok(()) => Ok(()),
        Err(found) => Err(NotJoined::Found(found)),
    }
}
