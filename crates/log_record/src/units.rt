//! The units of one record.

ghost use Rattle.std.specs.Prelude.{◌≡◌, ◌<◌, ◌≤◌, ◌++◌, ◌∷◌, [], length};
ghost use Rattle.log_record.specs.declared.units.TheConstants.{LONGEST_RECORD};

use arrayvec::ArrayVec;
use std::marker::Model;

/// The most units of a record: the header, and the longest note.
pub const LONGEST_RECORD: usize = 26;

/// The units of one record, at most `LONGEST_RECORD`. Contracts see the list of them.
#[derive(Debug, Drop)]
pub struct Units {
    units: ArrayVec<u64, LONGEST_RECORD>,
}

impl Model for Units {
    ghost use Rattle.std.specs.Prelude.{ℕ, List};

    ghost Value = { List ℕ };

    ghost view = { λ units. units.units.items };
}

impl Units {
    pub fn new() -> Units
        ensures { result ≡ [] }
    {
        Units {
            units: ArrayVec::new(),
        }
    }

    pub fn push(&mut self, unit: u64)
        requires { length self.old < LONGEST_RECORD }
        ensures { self.new ≡ self.old ++ unit ∷ [] }
    {
        self.units.push(unit);
    }

    /// Takes all units out.
    pub fn clear(&mut self)
        ensures { self.new ≡ [] }
    {
        self.units.clear();
    }

    pub fn as_slice(&self) -> &[u64]
        ensures units { result.now ≡ self.now }
        ensures short { length self.now ≤ LONGEST_RECORD }
    {
        self.units.as_slice()
    }
}
