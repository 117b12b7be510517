//! Laws of the definitions. The functions do nothing.

ghost use Rattle.std.specs.Prelude.{◌≡◌, ◌≢◌, ◌++◌, [], ◌∷◌, ◌↔◌, ◌⊎◌, ◌<◌, ◌≤◌, ◌+◌, ◌==◌, ◌||◌, true, false, ℕ, ℤ, List, if◌then◌else◌, Contains};
ghost use Rattle.std.specs.List.{AllByRecursion};
ghost use Rattle.log_record.specs.declared.rec.Rec.{Rec};
ghost use Rattle.log_record.specs.declared.rec.Placed.{Placed};
ghost use Rattle.log_record.specs.LogList.{size_of, end_of};
ghost use Rattle.log_record.specs.Spelling.{IsSpellable};
ghost use Rattle.lsn_space.specs.Opening.{IsSnapshot};
ghost use Rattle.lock_core.specs.declared.job.Job.{Job};
ghost use Rattle.lock_core.specs.declared.update.Change.{Change};
ghost use Rattle.lock_core.specs.History.{history, history_from};
ghost use Rattle.lock_core.specs.Records.{txn_of, commits, without_prev};
ghost use Rattle.lock_core.specs.Transactions.{own_records_of, updates_of, has_end, is_committed, touches, all_without_prev, in_order, ShareNoTransaction};
ghost use Rattle.lock_core.specs.Sums.{BaseState, Opening, no_opening, as_opening, base_after, BeginsInRange, moved, total, IsBalanceOf, balance_of, AreInRange, last_commit_of, sum_below, greatest_txn};
ghost use Rattle.lock_core.specs.declared.reason.Why.TheVariants as why;
ghost use Rattle.lock_core.specs.Tests.{IsGenesis, HasNoGenesis, AreAbove, IsPaired};
ghost use Rattle.lock_core.specs.Lawful.{IsLawful, base_with, base_state_of, opening_after};
ghost use Rattle.lock_core.specs.Faults.{IsUnlawfulAt};
ghost use Rattle.lock_core.specs.Plain.{plain_last_commit, IsPlainlyPaired};
ghost use Rattle.lock_core.specs.Alone.{PlainTransfer, Outcome, IsAllowedTransfer, outcome_alone, outcome_records, planned_records};
ghost use Rattle.lock_core.specs.Serial.{NumberedTransfer, numbered, IsSerialAfter, IsPartlySerialAfter, IsCutShort};
ghost use Rattle.lock_core.specs.Transfers.{transfer_of, IsAllowedJob};
ghost use Rattle.lock_core.specs.Soundness.{HasPredecessors, IsSoundAfter};
ghost use Rattle.lock_core.specs.AnyOrder.{taken, given, legs_of, HasRoomFor, IsDoneIn, done_records, weight_of};
ghost use Rattle.lock_core.specs.Witness.{genesis_log, transfer, transfer_history, snapshot, cut, behind_cut, again_behind_cut};

/// A law: a prefix of a lawful list is lawful.
pub fn lawful_front()
    ensures list { (opening : Opening) (later front : List Placed) → IsLawful opening (later ++ front) → IsLawful opening front }
    ensures records { (opening : Opening) (start : ℕ) (front later : List Rec) → IsLawful opening (history_from start [] (front ++ later))
        → IsLawful opening (history_from start [] front) }
{}

/// A law: a lawful list that has an account, followed by what is lawful behind the opening that it leaves, is lawful. So it is
/// where it is followed by what is lawful behind the state that it leaves, with any number, shares no transaction with it, and
/// has none up to the opening's number.
pub fn lawful_append()
    ensures on { (opening : Opening) (h l : List Placed) → IsLawful opening l → 0 < (base_with opening l).accounts
        → IsLawful (opening_after opening l) h → IsLawful opening (h ++ l) }
    ensures any { (opening : Opening) (txn : ℕ) (h l : List Placed) → IsLawful opening l → 0 < (base_with opening l).accounts
        → IsLawful (record { state = base_state_of opening l; txn = txn }) h
        → AreAbove opening.txn h → ShareNoTransaction h l → IsLawful opening (h ++ l) }
{}

/// A law: the number of an opening may be any that is below all numbers of the list. So what is lawful behind the state alone that
/// a list leaves is lawful behind the opening that it leaves, where its numbers are above those before it.
pub fn another_number()
    ensures any { (opening : Opening) (txn : ℕ) (h : List Placed) → IsLawful opening h → AreAbove txn h
        → IsLawful (record opening { txn = txn }) h }
    ensures joins { (opening : Opening) (first : ℕ) (h l : List Placed) → IsLawful (as_opening (base_state_of opening l)) h
        → AllByRecursion (λ entry. first ≤ txn_of entry.rec) h → (opening_after opening l).txn < first
        → IsLawful (opening_after opening l) h }
{}

/// A law: of a lawful list, what follows a prefix that it shares no transaction with, and has no Genesis, is lawful behind the
/// state that the prefix leaves and any number below all of its own. So what stands behind the Genesis records of a whole log is
/// lawful behind the opening that they leave.
pub fn lawful_split()
    ensures any { (opening : Opening) (txn : ℕ) (h l : List Placed) → IsLawful opening (h ++ l) → 0 < (base_with opening l).accounts
        → HasNoGenesis h → AreAbove txn h → ShareNoTransaction h l
        → IsLawful (record { state = base_state_of opening l; txn = txn }) h }
    ensures upgraded { (h l : List Placed) → AllByRecursion (λ entry. IsSpellable entry.rec) h → IsLawful no_opening (h ++ l)
        → 0 < (base_with no_opening l).accounts → HasNoGenesis h → AllByRecursion (λ entry. IsGenesis entry.rec) l
        → IsLawful (opening_after no_opening l) h }
{}

/// A law: a list that goes on behind the opening that another leaves shares no transaction with it, and leaves what both
/// together leave. So a log that was run on, cut and run on leaves what it leaves where it wasn't cut.
pub fn opening_goes_on()
    ensures apart { (opening : Opening) (h l : List Placed) → IsLawful opening l → 0 < (base_with opening l).accounts
        → IsLawful (opening_after opening l) h → ShareNoTransaction h l }
    ensures txn { (opening : Opening) (h l : List Placed)
        → (opening_after opening (h ++ l)).txn ≡ (opening_after (opening_after opening l) h).txn }
    ensures accounts { (opening : Opening) (h l : List Placed) → 0 < (base_with opening l).accounts
        → IsLawful (opening_after opening l) h
        → (opening_after opening (h ++ l)).state.accounts ≡ (opening_after (opening_after opening l) h).state.accounts }
    ensures end { (opening : Opening) (h l : List Placed) → 0 < (base_with opening l).accounts
        → IsLawful (opening_after opening l) h
        → (opening_after opening (h ++ l)).state.end ≡ (opening_after (opening_after opening l) h).state.end }
    ensures balance { (opening : Opening) (h l : List Placed) (account : ℕ) → IsLawful opening l → account < (base_with opening l).accounts
        → IsLawful (opening_after opening l) h
        → (opening_after opening (h ++ l)).state.balance account ≡ (opening_after (opening_after opening l) h).state.balance account }
    ensures last_commit { (opening : Opening) (h l : List Placed) (account : ℕ) → IsLawful opening l → 0 < (base_with opening l).accounts
        → IsLawful (opening_after opening l) h
        → (opening_after opening (h ++ l)).state.last_commit account
        ≡ (opening_after (opening_after opening l) h).state.last_commit account }
{}

/// A law: what a list says goes on over what follows it, where they share no transaction: sums, balances, last Commits.
pub fn sums_go_on()
    ensures total { (side : ℤ → ℕ) (account : ℕ) (h l : List Placed) → ShareNoTransaction h l
        → total side account (h ++ l) ≡ total side account h + total side account l }
    ensures balance { (opening : Opening) (h l : List Placed) (account : ℕ) → IsLawful opening l → account < (base_with opening l).accounts
        → ShareNoTransaction h l → balance_of (base_with opening l) (h ++ l) account ≡ balance_of (base_state_of opening l) h account }
    ensures last_commit { (base : BaseState) (h l : List Placed) (account : ℕ) → ShareNoTransaction h l
        → last_commit_of base (h ++ l) account ≡ last_commit_of (base_after base l) h account }
    ensures base { (opening : Opening) (h l : List Placed) → HasNoGenesis h → base_with opening (h ++ l) ≡ base_with opening l }
    ensures none { (opening : Opening) (h : List Placed) → 0 < opening.state.accounts → IsLawful opening h → HasNoGenesis h }
{}

/// A law: what one more record does. A record that is no Commit, of a transaction that isn't committed, changes neither
/// what is committed nor a sum nor a last Commit. A transaction's first Commit commits it, adds what its Updates move, and is the
/// last Commit on their accounts.
pub fn one_more_record()
    ensures plain_committed { (entry : Placed) (h : List Placed) (txn : ℕ) → commits entry.rec ≡ false
        → is_committed txn (entry ∷ h) ≡ is_committed txn h }
    ensures plain_total { (side : ℤ → ℕ) (account : ℕ) (entry : Placed) (h : List Placed) → commits entry.rec ≡ false
        → is_committed (txn_of entry.rec) h ≡ false → total side account (entry ∷ h) ≡ total side account h }
    ensures plain_last_commit { (base : BaseState) (entry : Placed) (h : List Placed) (account : ℕ) → commits entry.rec ≡ false
        → last_commit_of base (entry ∷ h) account ≡ last_commit_of base h account }
    ensures commit_committed { (entry : Placed) (h : List Placed) (txn : ℕ) → commits entry.rec ≡ true
        → is_committed txn (entry ∷ h) ≡ (is_committed txn h || (txn_of entry.rec == txn)) }
    ensures commit_total { (side : ℤ → ℕ) (account : ℕ) (entry : Placed) (h : List Placed) → commits entry.rec ≡ true
        → is_committed (txn_of entry.rec) h ≡ false
        → total side account (entry ∷ h) ≡ total side account h + moved side account (updates_of (txn_of entry.rec) h) }
    ensures commit_last_commit { (base : BaseState) (entry : Placed) (h : List Placed) (account : ℕ) → commits entry.rec ≡ true
        → last_commit_of base (entry ∷ h) account
        ≡ (if touches account (updates_of (txn_of entry.rec) h) then entry.end else last_commit_of base h account) }
{}

/// A law: behind balances in their range, each account of a lawful list of records has a balance, only one, and it is in its
/// range.
pub fn balances_in_range()
    ensures range { (opening : Opening) (h : List Placed) → BeginsInRange opening.state
        → AllByRecursion (λ entry. IsSpellable entry.rec) h → IsLawful opening h → AreInRange (base_with opening h) h }
    ensures after { (opening : Opening) (h : List Placed) → BeginsInRange opening.state
        → 0 < opening.state.accounts → IsLawful opening h → AreInRange opening.state h }
    ensures one { (base : BaseState) (h : List Placed) (account balance : ℕ) → IsBalanceOf base h account balance
        → balance ≡ balance_of base h account }
{}

/// A law: nothing is made or lost. In a lawful list the sum of all balances is that of the opening's and the Genesis balances.
pub fn sum_is_kept()
    ensures { (opening : Opening) (h : List Placed) → IsLawful opening h
        → sum_below (base_with opening h).accounts (balance_of (base_with opening h) h)
        ≡ sum_below (base_with opening h).accounts (base_with opening h).balance }
{}

/// A law: in a lawful list the tests say what the plain words of the format say.
pub fn plain_words()
    ensures last_commit { (opening : Opening) (h : List Placed) (account : ℕ) → IsLawful opening h
        → plain_last_commit (base_with opening h) h account ≡ last_commit_of (base_with opening h) h account }
    ensures pair { (opening : Opening) (h : List Placed) (txn : ℕ) (change : Change) → IsLawful opening h
        → IsPaired (updates_of txn h) change ↔ IsPlainlyPaired (updates_of txn h) change }
{}

/// A law: in a lawful list each Update, committed or not, names the last Commit on its account before it, which is there, and
/// still does at a Commit that commits it; where there is none it names the opening's, which before a whole log is 0. Nothing of
/// a transaction stands behind its end record.
pub fn predecessors()
    ensures list { (opening : Opening) (h : List Placed) → IsLawful opening h → HasPredecessors (base_with opening h) h }
    ensures none { (opening : Opening) (h : List Placed) (account : ℕ)
        → (base_with opening h).last_commit account ≡ opening.state.last_commit account }
{}

/// A law: lists share no transaction where the numbers of the one are below a number, and those of the other are not. What
/// follows a base state and is partly serial has no number below that of the first given transfer.
pub fn numbers_apart()
    ensures below { (h : List Placed) (first : ℕ) → greatest_txn h < first → AllByRecursion (λ entry. txn_of entry.rec < first) h }
    ensures from { (base : BaseState) (first : ℕ) (jobs : List PlainTransfer) (h : List Placed)
        → IsPartlySerialAfter base (numbered first jobs) h
        → AllByRecursion (λ entry. first ≤ txn_of entry.rec) h }
    ensures apart { (first : ℕ) (h l : List Placed) → AllByRecursion (λ entry. first ≤ txn_of entry.rec) h
        → AllByRecursion (λ entry. txn_of entry.rec < first) l → ShareNoTransaction h l }
{}

/// A law: no other account's balance changes the outcome of a transfer, or its records.
pub fn own_accounts_alone()
    ensures outcome { (job : PlainTransfer) (balance other : ℕ → ℕ)
        → AllByRecursion (λ leg. (balance leg.0 ≡ other leg.0) × (balance leg.1 ≡ other leg.1)) job.legs
        → outcome_alone job balance ≡ outcome_alone job other }
    ensures records { (txn : ℕ) (job : PlainTransfer) (last_commit balance other : ℕ → ℕ)
        → AllByRecursion (λ leg. (balance leg.0 ≡ other leg.0) × (balance leg.1 ≡ other leg.1)) job.legs
        → planned_records txn job last_commit balance ≡ planned_records txn job last_commit other }
{}

/// A law: the records of a transfer leg by leg, `prev` left out, are those of its outcome.
pub fn planned_records_are()
    ensures { (txn : ℕ) (job : PlainTransfer) (last_commit balance : ℕ → ℕ)
        → all_without_prev (planned_records txn job last_commit balance) ≡ outcome_records txn job (outcome_alone job balance) }
{}

/// A law: behind balances in their range, what is lawful behind the opening that a lawful list of records leaves keeps the list sound.
pub fn sound_after()
    ensures { (opening : Opening) (before later : List Placed) → BeginsInRange opening.state → IsLawful opening before
        → 0 < (base_with opening before).accounts → AllByRecursion (λ entry. IsSpellable entry.rec) (later ++ before)
        → IsLawful (opening_after opening before) later → IsSoundAfter opening before (later ++ before) }
{}

/// A law: an account that a lawful list doesn't have has what the opening says of it: nothing, and no Commit, in a whole log.
pub fn no_more_accounts()
    ensures { (opening : Opening) (h : List Placed) (account : ℕ) → IsLawful opening h → (base_with opening h).accounts ≤ account
        → ((base_state_of opening h).balance account ≡ opening.state.balance account)
        × ((base_state_of opening h).last_commit account ≡ opening.state.last_commit account) }
{}

/// A law: a history that is partly serial for some transfers is so for more, of which it has no record.
pub fn partly_serial_for_more()
    ensures { (base : BaseState) (some all : List NumberedTransfer) (h : List Placed) → AllByRecursion (Contains all) some
        → AllByRecursion (λ task. Contains some task ⊎ AllByRecursion (λ other. other.number ≢ task.number) some) all
        → IsPartlySerialAfter base some h → IsPartlySerialAfter base all h }
{}

/// A law: a transfer of which records are to come has no end record; and what is to come by its records leg by leg is to come
/// by those of its outcome, in as many units.
pub fn records_to_come()
    ensures unended { (txn : ℕ) (job : PlainTransfer) (outcome : Outcome) (records rest : List Rec) (next : Rec)
        → in_order (all_without_prev records) (next ∷ rest) ≡ outcome_records txn job outcome → has_end records ≡ false }
    ensures planned { (txn : ℕ) (job : PlainTransfer) (last_commit balance : ℕ → ℕ) (records rest : List Rec) (next : Rec)
        → in_order records (next ∷ rest) ≡ planned_records txn job last_commit balance
        → in_order (all_without_prev records) (without_prev next ∷ all_without_prev rest)
        ≡ outcome_records txn job (outcome_alone job balance) }
    ensures size { (rec : Rec) → size_of (without_prev rec) ≡ size_of rec }
{}

/// A law: a prefix of a partly serial history is partly serial. A serial history is a partly serial one in which each transfer has
/// its end record.
pub fn partly_serial_front()
    ensures front { (base : BaseState) (tasks : List NumberedTransfer) (later h : List Placed) → IsPartlySerialAfter base tasks (later ++ h)
        → IsPartlySerialAfter base tasks h }
    ensures partly { (base : BaseState) (tasks : List NumberedTransfer) (h : List Placed) → IsSerialAfter base tasks h
        → IsPartlySerialAfter base tasks h }
    ensures whole { (base : BaseState) (tasks : List NumberedTransfer) (h : List Placed)
        → AllByRecursion (λ task. has_end (own_records_of task.number h) ≡ true) tasks → IsPartlySerialAfter base tasks h
        → IsSerialAfter base tasks h }
{}

/// A law: transfers for which there is room are done in each serial history, and done or cut short in each partly serial one.
/// What a serial one leaves doesn't depend on the order: each balance, each sum over records that doesn't ask for `prev`, and the end.
pub fn done_in_any_order()
    ensures partly { (base : BaseState) (first : ℕ) (jobs : List PlainTransfer) (h : List Placed) → HasRoomFor base jobs
        → IsPartlySerialAfter base (numbered first jobs) h
        → AllByRecursion (λ task. IsDoneIn h task ⊎ IsCutShort h task) (numbered first jobs) }
    ensures done { (base : BaseState) (first : ℕ) (jobs : List PlainTransfer) (h : List Placed) → HasRoomFor base jobs
        → IsSerialAfter base (numbered first jobs) h → AllByRecursion (IsDoneIn h) (numbered first jobs) }
    ensures balance { (base : BaseState) (first : ℕ) (jobs : List PlainTransfer) (h : List Placed) (account : ℕ) → HasRoomFor base jobs
        → IsSerialAfter base (numbered first jobs) h → account < base.accounts
        → balance_of base h account + taken account (legs_of jobs) ≡ base.balance account + given account (legs_of jobs) }
    ensures sums { (base : BaseState) (first : ℕ) (jobs : List PlainTransfer) (records : List Rec) (weight : Rec → ℕ) → HasRoomFor base jobs
        → IsSerialAfter base (numbered first jobs) (history_from base.end [] records)
        → ((rec : Rec) → weight (without_prev rec) ≡ weight rec)
        → weight_of weight records ≡ weight_of weight (done_records (numbered first jobs)) }
    ensures end { (base : BaseState) (first : ℕ) (jobs : List PlainTransfer) (records : List Rec) → HasRoomFor base jobs
        → IsSerialAfter base (numbered first jobs) (history_from base.end [] records)
        → end_of records ≡ end_of (done_records (numbered first jobs)) }
{}

/// A witness that the premises of these laws can be met: the log of two accounts, of balances 100 and 0.
pub fn genesis_log_is_lawful()
    ensures lawful { IsLawful no_opening (history genesis_log) }
    ensures spellable { AllByRecursion (λ entry. IsSpellable entry.rec) (history genesis_log) }
{}

/// A witness that the premises of the laws of serial lists, of appending, and of what keeps a list sound can be met: after that
/// log, 30 from account 0 to account 1.
pub fn one_transfer_is_serial()
    ensures lawful { IsLawful (opening_after no_opening (history genesis_log)) transfer_history }
    ensures serial { IsSerialAfter (base_state_of no_opening (history genesis_log)) (numbered 1 (transfer ∷ [])) transfer_history }
    ensures apart { ShareNoTransaction transfer_history (history genesis_log) }
    ensures spellable { AllByRecursion (λ entry. IsSpellable entry.rec) (transfer_history ++ history genesis_log) }
    ensures allowed { IsAllowedTransfer (base_with no_opening (history genesis_log)).accounts transfer }
    ensures room { HasRoomFor (base_state_of no_opening (history genesis_log)) (transfer ∷ []) }
{}

/// A witness that a list may follow a cut log, and that the cut's number counts: behind the log that was cut after that transfer,
/// 30 from account 1 to account 0 is lawful; under a number that the log had, it is `ended`.
pub fn cut_log_goes_on()
    ensures snapshot { IsSnapshot snapshot }
    ensures lawful { IsLawful cut behind_cut }
    ensures again { IsUnlawfulAt cut again_behind_cut 9 why.Ended }
{}

/// A law: where a log allows a job, it allows the transfer that the job is.
pub fn allowed_jobs()
    ensures { (accounts : ℕ) (job : Job) → IsAllowedJob accounts job → IsAllowedTransfer accounts (transfer_of job) }
{}
