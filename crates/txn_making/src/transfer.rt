//! The records of a transfer, in order.
ghost use Rattle.std.specs.Prelude.{◌≡◌, [], map, IfOk, IfErr, OnOk, OnErr};
ghost use Rattle.log_record.specs.Spelling.{spelling, IsTxn, IsSpellable};
ghost use Rattle.lock_core.specs.Alone.{with_note};
ghost use Rattle.lock_core.specs.Transfers.{note_of};
ghost use Rattle.txn_parts.specs.Desk.{IsAtWork, WorksOn, view_at, books_at, accounts_at};
ghost use Rattle.txn_making.specs.Holdings.{taken_of};
ghost use Rattle.txn_making.specs.Inserts.{HasAdded, IsCutOff};
ghost use Rattle.txn_making.specs.Legs.{MayInsertTransfer, AddsRecords, last_record};
ghost use Rattle.txn_making.specs.Endings.{EndsTransfer};

use crate::inserting::insert_units;
use crate::legs::make_legs;
use arrayvec::ArrayVec;
use log_record::{Units, spell_commit, spell_over, spell_short};
use schedule_hook::Gate;
use std::sync::Wait;
use txn_jobs::{Answer, Cause, MOST_PARTIES};
use txn_parts::{Desk, Numbered, Relief, TakenAccount, TransferEnd, spell_job_note};

/// Inserts the records of the transfer, whose accounts are held: its Note, if it has one, two Updates for each leg that is
/// made, and its end record.
pub fn insert_transfer<R: Wait, Q: Relief, G: Gate>(
    desk: &mut Desk<'_, R, Q, G>,
    numbered: &Numbered,
    holdings: &mut ArrayVec<TakenAccount, MOST_PARTIES>,
    units: &mut Units,
) -> Result<TransferEnd, Cause>
    requires work { IsAtWork Q.Relief desk.old }
    requires may { MayInsertTransfer (accounts_at desk.old) numbered.now.number numbered.now.job holdings.old.items (view_at desk.old) }
    ensures work { WorksOn Q.Relief desk.old desk.new }
    ensures ended { IfOk result (λ ended. EndsTransfer numbered.now.number numbered.now.job ended holdings.new.items
        desk.old.seat.now desk.new.seat.now) }
    ensures added { OnErr result (HasAdded desk.old desk.new) }
    ensures cut { IfErr result (IsCutOff (view_at desk.new)) }
    ensures taken { map taken_of holdings.new.items ≡ map taken_of holdings.old.items }
{
    insert_note(desk, numbered, units)?;
    let list = holdings.as_mut_slice();
    let answer = make_legs(desk, numbered, list, units)?;
    spell_end(units, numbered, answer);
    let end = insert_units(desk, units)?;
    Ok(TransferEnd { answer, end })
}

/// Inserts the Note of the seat's last job, if it has one.
fn insert_note<R: Wait, Q: Relief, G: Gate>(
    desk: &mut Desk<'_, R, Q, G>,
    numbered: &Numbered,
    units: &mut Units,
) -> Result<(), Cause>
    requires work { IsAtWork Q.Relief desk.old }
    requires job { (books_at desk.old).last ≡ record { number = numbered.now.number; job = numbered.now.job } }
    requires number { IsTxn numbered.now.number }
    requires begins { (books_at desk.old).placed ≡ [] }
    ensures work { WorksOn Q.Relief desk.old desk.new }
    ensures noted { OnOk result (AddsRecords (with_note numbered.now.number (note_of numbered.now.job.note) [])
        desk.old.seat.now desk.new.seat.now) }
    ensures added { OnErr result (HasAdded desk.old desk.new) }
    ensures cut { IfErr result (IsCutOff (view_at desk.new)) }
{
    if !spell_job_note(units, numbered) {
        return Ok(());
    }
    insert_units(desk, units)?;
    Ok(())
}

/// Spells the end record of a transfer with this answer.
#[inline(always)]
fn spell_end(units: &mut Units, numbered: &Numbered, answer: Answer)
    requires { IsSpellable (last_record numbered.now.number numbered.now.job answer) }
    ensures { units.new ≡ spelling (last_record numbered.now.number numbered.now.job answer) }
{
    match answer {
        Answer::Done => spell_commit(
            units,
            numbered.number,
            numbered.job.legs.as_slice().len() as u32,
        ),
        Answer::Short(leg) => spell_short(units, numbered.number, leg),
        Answer::Over(leg) => spell_over(units, numbered.number, leg),
    }
}
