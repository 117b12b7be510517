//! What a list of records can be handed to, one by one.

ghost use Rattle.std.specs.Prelude.{◌≡◌, ◌≤◌, ◌+◌, ◌∷◌, ◌⊎◌, [], List, length, IfOk, IfErr, OnOk};
ghost use Rattle.log_record.specs.declared.rec.Placed.{Placed};
ghost use Rattle.log_record.specs.Spelling.{spelling, IsSpellable};
ghost use Rattle.lsn_space.specs.declared.lsn.TheConstants.{LAST};
ghost use Rattle.lsn_space.specs.Opening.{IsSnapshot};
ghost use Rattle.lock_core.specs.History.{end_from, entry_at};
ghost use Rattle.lock_core.specs.Lawful.{IsLawful};
ghost use Rattle.lock_core.specs.AccountRows.{opening_of};
ghost use Rattle.lock_core.specs.Sums.{Opening};
ghost use Rattle.lock_core.specs.Taking.{IsTakeFault};

use crate::judge::Judge;
use crate::reason::JudgeFault;
use log_record::Rec;
use lsn_space::{Lsn, NoMemory};
use std::alloc::Global;

/// Takes a list of records behind an opening, one by one, as long as it is lawful, and keeps of the list what it needs.
pub trait TakesRecords: Drop {
    /// It has taken this history behind this opening.
    ghost has_taken: { Opening → Self → List Placed → Type 0 };

    /// One that has taken no record behind this opening, which has no account or is one that a file may begin with.
    fn after(alloc: Global, opening: &lsn_space::Opening) -> Result<Self, NoMemory>
        requires { (opening.now.accounts ≡ []) ⊎ IsSnapshot opening.now }
        ensures { IfOk result (λ taker. has_taken (opening_of opening.now) taker []) };

    /// Takes the record that starts at `lsn`, the end of the list taken so far. After a fault the taker is spent.
    fn take(&mut self, lsn: Lsn, rec: &Rec) -> Result<(), JudgeFault>
        requires taken { (opening : Opening) × (h : List Placed) × has_taken opening self.old h × (lsn ≡ end_from opening.state.end h) }
        requires spellable { IsSpellable rec.now }
        requires fits { lsn + length (spelling rec.now) ≤ LAST }
        ensures taken { OnOk result ((opening : Opening) (h : List Placed) → has_taken opening self.old h
            → has_taken opening self.new (entry_at lsn rec.now ∷ h)) }
        ensures fault { IfErr result (λ fault. (opening : Opening) (h : List Placed) → has_taken opening self.old h
            → IsTakeFault opening h (entry_at lsn rec.now) fault) };

    /// What is taken is lawful.
    ghost lawful: { (opening : Opening) (taker : Self) (h : List Placed) → has_taken opening taker h → IsLawful opening h };
}

impl TakesRecords for Judge {
    ghost use Rattle.lock_core.specs.Taking.{HasJudged};

    ghost has_taken = { HasJudged };

    #[inline(always)]
    fn after(alloc: Global, opening: &lsn_space::Opening) -> Result<Judge, NoMemory> {
        Judge::after(alloc, opening)
    }

    #[inline(always)]
    fn take(&mut self, lsn: Lsn, rec: &Rec) -> Result<(), JudgeFault> {
        self.take(lsn, rec)
    }

    ghost lawful = { λ opening judge h taken. taken.ledger.judged.lawful };
}
