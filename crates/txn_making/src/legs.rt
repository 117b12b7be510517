//! The legs of a transfer, one after another.
ghost use Rattle.std.specs.Prelude.{◌≡◌, ◌<◌, map, IfOk, IfErr, OnOk, OnErr};
ghost use Rattle.txn_parts.specs.Desk.{IsAtWork, WorksOn, view_at, books_at, accounts_at};
ghost use Rattle.txn_making.specs.Holdings.{taken_of};
ghost use Rattle.txn_making.specs.Inserts.{HasAdded, IsCutOff};
ghost use Rattle.txn_making.specs.Legs.{HoldsJob, StandsBefore, ReachesEnd, MayMakeLeg, AddsLeg};

use crate::inserting::insert_units;
use lock_core::Leg;
use log_record::Units;
use schedule_hook::Gate;
use std::sync::Wait;
use txn_jobs::{Answer, Cause};
use txn_parts::{
    Desk, Numbered, Relief, TakenAccount, holding_of, move_amount, refusal, spell_credit,
    spell_debit,
};

/// Makes the legs, each on the balances as those before it left them, up to the first that can't be made. Answers how the
/// transfer ends.
pub fn make_legs<R: Wait, Q: Relief, G: Gate>(
    desk: &mut Desk<'_, R, Q, G>,
    numbered: &Numbered,
    holdings: &mut [TakenAccount],
    units: &mut Units,
) -> Result<Answer, Cause>
    requires work { IsAtWork Q.Relief desk.old }
    requires job { HoldsJob (accounts_at desk.old) numbered.now.number numbered.now.job holdings.old (books_at desk.old) }
    requires first { StandsBefore 0 numbered.now.number numbered.now.job holdings.old (books_at desk.old) }
    ensures work { WorksOn Q.Relief desk.old desk.new }
    ensures added { HasAdded desk.old desk.new }
    ensures ended { IfOk result (λ answer. ReachesEnd answer numbered.now.number numbered.now.job holdings.new (books_at desk.new)) }
    ensures cut { IfErr result (IsCutOff (view_at desk.new)) }
    ensures taken { map taken_of holdings.new ≡ map taken_of holdings.old }
{
    let legs = numbered.job.legs.as_slice();
    'legs: for i in 0..legs.len() {
        let leg = legs[i];
        if let Some(answer) = refusal(holdings, leg, i as u32 + 1) {
            return Ok(answer);
        }
        make_leg(desk, numbered.number, leg, holdings, units)?;
        move_amount(holdings, leg);
    }
    Ok(Answer::Done)
}

/// Inserts the Updates of the leg's two accounts.
fn make_leg<R: Wait, Q: Relief, G: Gate>(
    desk: &mut Desk<'_, R, Q, G>,
    number: u32,
    leg: Leg,
    holdings: &[TakenAccount],
    units: &mut Units,
) -> Result<(), Cause>
    requires work { IsAtWork Q.Relief desk.old }
    requires leg { MayMakeLeg (accounts_at desk.old) number leg holdings.now (books_at desk.old) }
    ensures work { WorksOn Q.Relief desk.old desk.new }
    ensures made { OnOk result (AddsLeg number leg desk.old.seat.now desk.new.seat.now) }
    ensures added { OnErr result (HasAdded desk.old desk.new) }
    ensures cut { IfErr result (IsCutOff (view_at desk.new)) }
{
    spell_debit(units, number, holding_of(holdings, leg.payer), leg.amount);
    insert_units(desk, units)?;
    spell_credit(units, number, holding_of(holdings, leg.payee), leg.amount);
    insert_units(desk, units)?;
    Ok(())
}
