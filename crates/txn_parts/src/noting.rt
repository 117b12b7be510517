//! The Note of a transfer.
ghost use Rattle.std.specs.Prelude.{◌≡◌, true, false, None};
ghost use Rattle.txn_parts.specs.Note.{SpellsNote};

use crate::numbered::Numbered;
use log_record::{Units, spell_note};

/// Spells the Note of this transfer. False: it has none.
#[inline(always)]
pub fn spell_job_note(units: &mut Units, numbered: &Numbered) -> bool
    ensures noted { result ≡ true → SpellsNote numbered.now.number numbered.now.job units.new }
    ensures none { result ≡ false → numbered.now.job.note ≡ None }
{
    let Some(remark) = &numbered.job.note else {
        return false;
    };
    spell_note(units, numbered.number, remark.as_slice());
    true
}
