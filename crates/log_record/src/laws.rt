//! Laws of the definitions. The functions do nothing.

ghost use Rattle.std.specs.Prelude.{◌≡◌, ◌<◌, ◌≤◌, ◌^◌, ◌-◌, ◌++◌, ◌↔◌, ℕ, List, length, All};
ghost use Rattle.lsn_space.specs.Tiling.{IsTiling};
ghost use Rattle.log_record.specs.declared.limits.TheConstants.{LAST_TXN, MOST_LEGS};
ghost use Rattle.log_record.specs.declared.rec.Rec.{Rec};
ghost use Rattle.log_record.specs.declared.text.TheConstants.{LONGEST_NOTE};
ghost use Rattle.log_record.specs.declared.units.TheConstants.{LONGEST_RECORD};
ghost use Rattle.log_record.specs.LogList.{units_of, end_of, starts_of, ranges_of, prefix_to, IsBoundary};
ghost use Rattle.log_record.specs.Spelling.{spelling, IsSpellable, BeginsWith};

/// A law: no spelling is a prefix of another, and each record has one. So what was spelled is read
/// back whatever follows it, and units determine the list of records that they spell.
pub fn one_spelling()
    ensures front { (r s : Rec) (x y : List ℕ) → IsSpellable r → IsSpellable s
        → spelling r ++ x ≡ spelling s ++ y → (r ≡ s) × (x ≡ y) }
    ensures back { (r s : Rec) (x : List ℕ) → IsSpellable r → BeginsWith (spelling r ++ x) s → s ≡ r }
    ensures list { (L M : List Rec) → All IsSpellable L → All IsSpellable M → units_of L ≡ units_of M → L ≡ M }
{}

/// A law: a spelling has 1 to `LONGEST_RECORD` units, each of 64 bits.
pub fn spelling_bounds()
    ensures some { (r : Rec) → 1 ≤ length (spelling r) }
    ensures short { (r : Rec) → IsSpellable r → length (spelling r) ≤ LONGEST_RECORD }
    ensures fits { (r : Rec) → IsSpellable r → All (λ unit. unit < 2 ^ 64) (spelling r) }
{}

/// A law: the records of a log list lie one after another from 0 to its end, and the list up to an
/// LSN is a prefix of it, which at a boundary ends exactly there.
pub fn log_list_laws()
    ensures starts { (L : List Rec) → length (starts_of L) ≡ length L }
    ensures tiling { (L : List Rec) → IsTiling (λ (r : ℕ × ℕ). r.0) (λ (r : ℕ × ℕ). r.1) 0 (ranges_of L) (end_of L) }
    ensures boundary { (L : List Rec) (x : ℕ) →
        IsBoundary L x ↔ ((front rest : List Rec) × (L ≡ front ++ rest) × (x ≡ end_of front)) }
    ensures front { (L : List Rec) (x : ℕ) → (rest : List Rec) × (L ≡ prefix_to L x ++ rest) }
    ensures below { (L : List Rec) (x : ℕ) → end_of (prefix_to L x) ≤ x }
    ensures longest { (front rest : List Rec) (x : ℕ) → end_of front ≤ x
        → prefix_to (front ++ rest) x ≡ front ++ prefix_to rest (x - end_of front) }
    ensures exact { (L : List Rec) (x : ℕ) → IsBoundary L x → end_of (prefix_to L x) ≡ x }
    ensures whole { (L : List Rec) → prefix_to L (end_of L) ≡ L }
{}

/// A law: the limits that the definitions take from the code are the format's.
pub fn format_limits()
    ensures txn { LAST_TXN ≡ 4294967295 }
    ensures legs { MOST_LEGS ≡ 8 }
    ensures note { LONGEST_NOTE ≡ 200 }
    ensures record { LONGEST_RECORD ≡ 26 }
{}
