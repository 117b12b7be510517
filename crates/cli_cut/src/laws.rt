//! What `recover` answers of a log that `cut` or `upgrade` made.
ghost use Rattle.std.specs.Prelude.{List, [], ℕ};
ghost use Rattle.lsn_space.specs.Opening.{Opening};
ghost use Rattle.segment_file.specs.Log.{cut_log, HoldsLog};
ghost use Rattle.log_recovery.specs.Recovery.{HoldsLawful};
ghost use Rattle.cli_cut.specs.Recovered.{IsCutLog, IsUpgradedLog, RecoverAlike};

/// A law: of the log that was made `recover` answers the end, the balances, the last commits and the next transaction number that
/// it answers of the log that was cut.
pub fn cut_recovers_the_same()
    ensures { (bytes made : List ℕ) → IsCutLog bytes made → RecoverAlike bytes made }
{}

/// A law: a log with an opening alone, as `cut` makes, holds a lawful list with no record.
pub fn cut_is_lawful()
    ensures { (made : List ℕ) (opening : Opening) → HoldsLog made (cut_log opening)
        → HoldsLawful made (record { opening = opening; records = [] }) }
{}

/// A law: the list of a log that `upgrade` made is lawful, and of it `recover` answers what it answers of the log that was read.
pub fn upgrade_recovers_the_same()
    ensures lawful { (bytes written : List ℕ) (log : IsUpgradedLog bytes written)
        → HoldsLawful written log.made }
    ensures alike { (bytes written : List ℕ) → IsUpgradedLog bytes written
        → RecoverAlike bytes written }
{}
