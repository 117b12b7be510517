//! The count of end records.
ghost use Rattle.std.specs.Prelude.{◌≡◌, ◌+◌, ◌<◌, ◌^◌};
ghost use Rattle.end_lines.specs.EndLines.{is_done, is_refused};

use log_record::Rec;

/// How many end records were seen: of transactions that are done, and of those that were refused.
#[derive(Clone, Copy, Debug, PartialEq, Eq)]
pub struct Tally {
    pub done: u64,
    pub refused: u64,
}

impl Tally {
    /// Counts the record, where it ends a transaction.
    pub fn count(&mut self, rec: &Rec)
        requires { self.old.done + self.old.refused + 1 < 2 ^ 64 }
        ensures done { self.new.done ≡ self.old.done + is_done rec.now }
        ensures refused { self.new.refused ≡ self.old.refused + is_refused rec.now }
    {
        match rec {
            Rec::Commit { .. } => self.done += 1,
            Rec::Short { .. } | Rec::Over { .. } => self.refused += 1,
            _ => {}
        }
    }
}
