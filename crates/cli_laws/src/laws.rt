//! Laws of the definitions. The functions do nothing.

ghost use Rattle.std.specs.Prelude.{◌≡◌, ◌++◌, ℕ, List, ◌*◌, Some};
ghost use Rattle.log_record.specs.declared.rec.Rec.{Rec};
ghost use Rattle.log_rule.specs.declared.start.Start.{Start};
ghost use Rattle.log_rule.specs.declared.view.View.{View};
ghost use Rattle.log_table.specs.Seats.{IsOf};
ghost use Rattle.commit_pipeline.specs.declared.daemon.Daemon.{Daemon};
ghost use Rattle.txn_jobs.specs.Places.{NumberedJobs};
ghost use Rattle.lock_core.specs.Sums.{BaseState};
ghost use Rattle.log_recovery.specs.Opened.{OpenedList, placed, with_records, base_left};
ghost use Rattle.log_recovery.specs.Recovery.{HoldsLawful};
ghost use Rattle.txn_script.specs.declared.generator.TheConstants.{GENERATED_ACCOUNTS};
ghost use Rattle.txn_script.specs.Generator.{generated_balance, OpensGenerated};
ghost use Rattle.cli_shared.specs.Creation.{new_list};
ghost use Rattle.cli_threads.specs.Run.{GoesOn, HoldsRun};
ghost use Rattle.cli_run.specs.RunAnswers.{HoldsTold, run_text};
ghost use Rattle.cli_shared.specs.Outside.{Outside};
ghost use Rattle.cli_threads.specs.RunStops.{IsTotalAmong};
ghost use Rattle.cli_laws.specs.Generated.{HasRunGenerated, counts_of};
ghost use Rattle.cli_laws.specs.InTurn.{EndsInTurn, HasFewUnended};
ghost use Rattle.cli_laws.specs.LogEnd.{IsTotalInRange};
ghost use Rattle.cli_laws.specs.Recovered.{IsRecoveredAs};
ghost use Rattle.cli_laws.specs.RunPromise.{KeepsPromise};
ghost use Rattle.cli_laws.specs.RunWitness.{HasMadePayment, HasHitLogEnd, PlainDaemon, file_at};
ghost use Rattle.cli_threads.specs.Shares.{Share};
ghost use Rattle.cli_threads.specs.Sharing.{IsSharedOut, Sharing};
ghost use Rattle.cli_laws.specs.Told.{HasToldPayment, TellsOfCommits};
ghost use Rattle.cli_threads.specs.Transferred.{HasTransferred};
ghost use Rattle.cli_demo.specs.Summary.{generated_opening, mix_below, summary_of, summary_text};

use log_disk::{LogDisk, Sink};

/// A law: `recover` reads what `new` left. It finds no fault in it, and what it writes of it is the text of the new log.
pub fn new_is_recovered()
    ensures { (bytes balances : List ℕ) → HoldsLawful bytes (new_list balances)
        → IsRecoveredAs bytes (new_list balances) }
{}

/// A law: `recover` reads what `run` left. It finds no fault in it, and what it writes of it is the text of the opened list and
/// the prefix that the bytes hold: `run`. So it is with any lawful list, such as the opened one alone: `lawful`.
pub fn run_is_recovered()
    ensures lawful { (bytes : List ℕ) (list : OpenedList) → HoldsLawful bytes list → IsRecoveredAs bytes list }
    ensures run { (bytes : List ℕ) (opened : OpenedList) (list : List Rec) (jobs : NumberedJobs) (sharing : Sharing)
        → (held : HoldsRun opened jobs sharing list bytes) → IsRecoveredAs bytes (with_records opened held.front) }
{}

/// A law: what is known of a run once all seats are gathered gives what it promises.
pub fn run_keeps_log<D: LogDisk, K: Sink>()
    ensures { (opened : OpenedList) (jobs : NumberedJobs) (front : ℕ) (shares : List Share)
        (key : Start) (old new : Daemon D K D.LogDisk K.Sink) (view : View) (lsn : ℕ) (rows : List (ℕ × ℕ))
        → HasTransferred D.LogDisk K.Sink opened jobs front shares key old new view lsn rows
        → KeepsPromise D.LogDisk K.Sink opened jobs front shares key old new view lsn rows }
{}

/// A law: of transfers that were shared out among so many workers at most as many have records and no end record in any list that the
/// run leaves: `unended`. With one worker each one before another that has a record has its end record, so that they end in
/// the script's order: `one_worker`.
pub fn transfers_come_in_turn()
    ensures unended { (opened list : OpenedList) (jobs : NumberedJobs) (sharing : Sharing)
        → GoesOn opened jobs sharing list
        → (workers : ℕ) → IsSharedOut workers jobs sharing → HasFewUnended workers jobs (placed list) }
    ensures one_worker { (opened list : OpenedList) (jobs : NumberedJobs) (sharing : Sharing)
        → GoesOn opened jobs sharing list
        → IsSharedOut 1 jobs sharing → EndsInTurn jobs (placed list) }
{}

/// A law: the total that is told at the end of the log is the record's own size where there are no slots, and with one worker. It is
/// never below that size, and at most 26 units for each worker; a group's is at most a quarter of the ring.
pub fn total_at_the_log_end()
    ensures { (ring slots workers size total : ℕ) → IsTotalAmong ring slots workers size total
        → IsTotalInRange ring slots workers size total }
{}

/// A law: a `done` line that was written whole is of a Commit in the list of each image, which ends at the LSN of the line.
/// `text` says so of a prefix of the text of an image's list, `image` of what a run told its sink. One transfer was told: `met`.
pub fn told_commits_are_held<D: LogDisk>()
    ensures text { (bytes text rest : List ℕ) (opened : OpenedList) (records : List Rec)
        → HoldsLawful bytes (with_records opened records)
        → run_text opened records ≡ text ++ rest → TellsOfCommits opened records text }
    ensures image { (opened : OpenedList) (list : List Rec) (jobs : NumberedJobs) (sharing : Sharing)
        (old new : Outside D) (image before text : List ℕ)
        → (held : HoldsTold D.LogDisk opened jobs sharing list old new image)
        → old.text ≡ Some before → new.text ≡ Some (before ++ text)
        → TellsOfCommits opened held.run.front text }
    ensures met { HasToldPayment }
{}

/// A witness that the premises of `run_keeps_log` can be met, all at once: over any daemon's table, to which its seat belongs, two workers
/// make one transfer; and with any number of slots two workers find no room for theirs at the end of the log, and leave a third.
pub fn one_payment_is_made()
    ensures made { (d : PlainDaemon file_at) → IsOf d.flusher.table.now d.flusher.seat → HasMadePayment d }
    ensures log_end { (slots : ℕ) → PlainDaemon file_at → HasHitLogEnd slots }
{}

/// A law: the summary of generated transfers is told by their number and seed, in whatever order they ran. The list of their
/// accounts leaves such a base as they run over: `opening`, `start`.
pub fn summary_in_any_order()
    ensures text { (n seed first : ℕ) (base : BaseState) (records : List Rec) (rows : List (ℕ × ℕ))
        → HasRunGenerated n seed first base records rows
        → summary_of (counts_of n base records) rows ≡ summary_text n seed }
    ensures opening { OpensGenerated (base_left generated_opening) }
    ensures start { (base_left generated_opening).end ≡ 2 * GENERATED_ACCOUNTS }
{}

/// Mixes that were reckoned by hand.
pub fn known_mixes()
    ensures none { mix_below GENERATED_ACCOUNTS (generated_balance 0 7) ≡ 2080000000 }
    ensures three { mix_below GENERATED_ACCOUNTS (generated_balance 3 7) ≡ 2080000080 }
{}
