//! What a list of records can be handed to, one by one, for an answer to what it is asked.

ghost use Rattle.std.specs.Prelude.{◌≡◌, ◌≤◌, ◌+◌, ◌∷◌, ◌⊎◌, [], ℕ, List, length, IfOk, IfErr, OnOk};
ghost use Rattle.log_record.specs.declared.rec.Placed.{Placed};
ghost use Rattle.log_record.specs.Spelling.{spelling, IsSpellable};
ghost use Rattle.lsn_space.specs.declared.lsn.TheConstants.{LAST};
ghost use Rattle.lsn_space.specs.Opening.{IsSnapshot};
ghost use Rattle.lock_core.specs.History.{end_from, entry_at};
ghost use Rattle.lock_core.specs.Lawful.{IsLawful};
ghost use Rattle.lock_core.specs.AccountRows.{opening_of};
ghost use Rattle.lock_core.specs.Sums.{Opening};
ghost use Rattle.lock_core.specs.Taking.{IsTakeFault};

use lock_core::{Judge, JudgeFault};
use log_record::Rec;
use lsn_space::{Lsn, NoMemory};
use std::alloc::Global;

/// Takes a list of records behind an opening as what `TakesRecords` says of takers does, and keeps of the list what it needs for what it is
/// asked: of an LSN, or of an account. That stays: what it has taken, it has taken for the same question.
pub trait TakesAsked: Drop {
    /// Asked for this, it has taken this history behind this opening.
    ghost has_taken: { ℕ → Opening → Self → List Placed → Type 0 };

    /// One that is asked for this, and has taken no record behind this opening, which has no account or is one that a file may begin with.
    fn after(alloc: Global, opening: &lsn_space::Opening, asked: u32) -> Result<Self, NoMemory>
        requires { (opening.now.accounts ≡ []) ⊎ IsSnapshot opening.now }
        ensures { IfOk result (λ taker. has_taken asked (opening_of opening.now) taker []) };

    /// Takes the record that starts at `lsn`, the end of the list taken so far. After a fault the taker is spent.
    fn take(&mut self, lsn: Lsn, rec: &Rec) -> Result<(), JudgeFault>
        requires taken { (asked : ℕ) × (opening : Opening) × (h : List Placed) × has_taken asked opening self.old h
            × (lsn ≡ end_from opening.state.end h) }
        requires spellable { IsSpellable rec.now }
        requires fits { lsn + length (spelling rec.now) ≤ LAST }
        ensures taken { OnOk result ((asked : ℕ) (opening : Opening) (h : List Placed) → has_taken asked opening self.old h
            → lsn ≡ end_from opening.state.end h → has_taken asked opening self.new (entry_at lsn rec.now ∷ h)) }
        ensures fault { IfErr result (λ fault. (asked : ℕ) (opening : Opening) (h : List Placed) → has_taken asked opening self.old h
            → IsTakeFault opening h (entry_at lsn rec.now) fault) };

    /// What is taken is lawful.
    ghost lawful: { (asked : ℕ) (opening : Opening) (taker : Self) (h : List Placed) → has_taken asked opening taker h → IsLawful opening h };
}

/// A judge is asked for nothing.
impl TakesAsked for Judge {
    ghost use Rattle.lock_core.specs.Taking.{HasJudged};

    ghost has_taken = { λ asked. HasJudged };

    #[inline(always)]
    fn after(alloc: Global, opening: &lsn_space::Opening, _asked: u32) -> Result<Judge, NoMemory> {
        Judge::after(alloc, opening)
    }

    #[inline(always)]
    fn take(&mut self, lsn: Lsn, rec: &Rec) -> Result<(), JudgeFault> {
        self.take(lsn, rec)
    }

    ghost lawful = { λ asked opening judge h taken. taken.ledger.judged.lawful };
}
