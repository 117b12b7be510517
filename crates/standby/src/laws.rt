//! A law of the definitions. The function does nothing.

ghost use Rattle.std.specs.Prelude.{◌≡◌, ◌++◌, List, ℕ};
ghost use Rattle.log_record.specs.declared.rec.Rec.{Rec};
ghost use Rattle.log_recovery.specs.Opened.{OpenedList, list_end, with_front};
ghost use Rattle.log_recovery.specs.Recovery.{HoldsLawful};
ghost use Rattle.ship_stream.specs.Frames.{stream_of};
ghost use Rattle.standby.specs.Following.{HoldsFollowed};

/// A law: what is shipped of a log's list from the end of one of its prefixes on, and followed, in part or whole, by a log that held
/// that prefix, leaves a prefix of the list. So a standby is never ahead of the log that was shipped.
pub fn never_ahead()
    ensures { (list : OpenedList) (before later : List Rec) (log fed more bytes : List ℕ) → HoldsLawful log list
        → list.records ≡ before ++ later → fed ++ more ≡ stream_of (list_end (with_front list before)) later
        → HoldsFollowed (with_front list before) fed bytes
        → (front rest : List Rec) × (list.records ≡ before ++ front ++ rest) × HoldsLawful bytes (with_front list (before ++ front)) }
{}
