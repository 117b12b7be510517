//! One record of a transfer is inserted.
ghost use Rattle.std.specs.Prelude.{◌≡◌, [], ◌∷◌, IfOk, IfErr, OnErr};
ghost use Rattle.log_record.specs.Spelling.{spelling};
ghost use Rattle.log_rule.specs.Books.{MayEnter};
ghost use Rattle.txn_parts.specs.Desk.{IsAtWork, WorksOn, HasOnlyLooked, view_at, books_at};
ghost use Rattle.txn_making.specs.Inserts.{PutsRecord, StopsFor, next_at};

use consol_array::insert;
use log_record::Units;
use lsn_space::Lsn;
use schedule_hook::Gate;
use std::sync::Wait;
use txn_jobs::Cause;
use txn_parts::{Desk, Relief, may_come, pause};

/// Inserts the next record of the seat's last job, of which these are the units, and answers where it ends. While the ring is full
/// it waits.
#[inline(always)]
pub fn insert_units<R: Wait, Q: Relief, G: Gate>(
    desk: &mut Desk<'_, R, Q, G>,
    units: &Units,
) -> Result<Lsn, Cause>
    requires work { IsAtWork Q.Relief desk.old }
    requires next { MayEnter (next_at desk.old) (books_at desk.old) }
    requires spelled { units.now ≡ spelling (next_at desk.old) }
    ensures work { WorksOn Q.Relief desk.old desk.new }
    ensures put { IfOk result (λ end. PutsRecord (next_at desk.old) end desk.old.seat.now desk.new.seat.now) }
    ensures kept { OnErr result (HasOnlyLooked desk.old desk.new) }
    ensures stopped { IfErr result (λ cause. StopsFor cause (next_at desk.old ∷ []) (view_at desk.new)) }
{
    let count = units.as_slice().len() as u32;
    for _ in desk.rt.forever() {
        match insert(desk.rt, desk.table, desk.seat, units, desk.gate) {
            Ok(at) => {
                let end = Lsn::new(at.units() + count);
                desk.made.add(count, end);
                return Ok(end);
            }
            Err(refused) => may_come(refused)?,
        }
        pause(desk, None)?;
    }
    unreachable!()
}
