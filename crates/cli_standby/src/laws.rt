//! Laws of what `ship` writes and `follow` leaves. The functions do nothing.

ghost use Rattle.std.specs.Prelude.{◌≡◌, ◌⊎◌, ◌++◌, List, ℕ};
ghost use Rattle.log_record.specs.declared.rec.Rec.{Rec};
ghost use Rattle.log_recovery.specs.Opened.{OpenedList, list_end, with_front};
ghost use Rattle.log_recovery.specs.Recovery.{HoldsLawful};
ghost use Rattle.ship_stream.specs.Frames.{stream_of};
ghost use Rattle.standby.specs.AppliedFrames.{HoldsFront};
ghost use Rattle.standby.specs.Following.{BeginsWithFrames};
ghost use Rattle.cli_shared.specs.Outside.{Outside, OnlyReads};
ghost use Rattle.cli_standby.specs.Following.{AnswersFollow};
ghost use Rattle.cli_standby.specs.Leaving.{StaysALog};

use cli_shared::Detail;
use log_disk::LogDisk;

/// A law: where the input is a prefix of what is shipped of a log's list from the end of a prefix on, and the list that was opened is
/// that prefix, what `follow` leaves in an image is a prefix of the list. So a standby is never ahead of the log that was shipped.
pub fn follows_what_was_shipped()
    ensures { (list : OpenedList) (before later : List Rec) (log input more : List ℕ) (frames : List (List Rec)) (image : List ℕ)
        → HoldsLawful log list → list.records ≡ before ++ later → input ++ more ≡ stream_of (list_end (with_front list before)) later
        → BeginsWithFrames input (with_front list before) frames → HoldsFront (with_front list before) frames image
        → (front rest : List Rec) × (list.records ≡ before ++ front ++ rest) × HoldsLawful image (with_front list (before ++ front)) }
{}

/// A law: where `follow` didn't only look at the disk, it has opened a log, and whatever a crash might have left since holds a lawful
/// list. So `recover` finds no fault in it (`run_is_recovered` of `cli_laws`).
pub fn follow_leaves_a_log<D: LogDisk>()
    ensures { (old new : Outside D) (detail : Detail) → AnswersFollow D.LogDisk old new detail
        → OnlyReads D.LogDisk old new ⊎ StaysALog D.LogDisk old.disk new.disk }
{}
