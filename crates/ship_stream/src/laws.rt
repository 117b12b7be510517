//! Laws of the grammar. The functions do nothing.

ghost use Rattle.std.specs.Prelude.{◌≡◌, ◌≤◌, ◌+◌, ◌++◌, ℕ, List};
ghost use Rattle.std.specs.List.{AllByRecursion};
ghost use Rattle.lsn_space.specs.declared.lsn.TheConstants.{LAST};
ghost use Rattle.log_record.specs.declared.rec.Rec.{Rec};
ghost use Rattle.log_record.specs.LogList.{end_of};
ghost use Rattle.log_record.specs.Spelling.{IsSpellable};
ghost use Rattle.ship_stream.specs.Came.{Came, HasCome, IsBadStream};
ghost use Rattle.ship_stream.specs.Frames.{frames_of, stream_of};
ghost use Rattle.ship_stream.specs.Stream.{records_of, HasFrames, IsStream};
ghost use Rattle.ship_stream.specs.declared.layout.TheConstants.{SHIPPED_UNITS};

/// A law: bytes have one reading. As much has come of them as one reading says; they have one first bad part at most, and a
/// stream has none; frames that a stream begins with are the first of its frames.
pub fn one_stream()
    ensures come { (bytes : List ℕ) (a b : Came) → HasCome bytes a → HasCome bytes b → a ≡ b }
    ensures front { (bytes : List ℕ) (first other : ℕ) (frames begun : List (List Rec)) (rest : List ℕ)
        → IsStream bytes first frames → HasFrames bytes other begun rest
        → (other ≡ first) × (later : List (List Rec)) × (frames ≡ begun ++ later) }
    ensures fine { (bytes : List ℕ) (first : ℕ) (frames : List (List Rec)) (offset : ℕ)
        → IsStream bytes first frames → IsBadStream bytes offset → ⊥ }
    ensures place { (bytes : List ℕ) (a b : ℕ) → IsBadStream bytes a → IsBadStream bytes b → a ≡ b }
{}

/// A law: what is shipped, up to `LAST`, is a stream of the records, in frames of at most `SHIPPED_UNITS` units each.
pub fn shipped_stream()
    ensures stream { (first : ℕ) (records : List Rec) → AllByRecursion IsSpellable records → first + end_of records ≤ LAST
        → IsStream (stream_of first records) first (frames_of records) }
    ensures records { (records : List Rec) → records_of (frames_of records) ≡ records }
    ensures short { (records : List Rec) → AllByRecursion IsSpellable records
        → AllByRecursion (λ frame. end_of frame ≤ SHIPPED_UNITS) (frames_of records) }
{}
