//! The units of a log.

ghost use Rattle.std.specs.Prelude.{◌≡◌};

use std::marker::Model;

/// The units of a log. Contracts see the list of them.
#[derive(Debug, Drop)]
pub struct LogUnits {
    units: Vec<u64>,
}

impl Model for LogUnits {
    ghost use Rattle.std.specs.Prelude.{ℕ, List};

    ghost Value = { List ℕ };

    ghost view = { λ log. log.units.items };
}

impl LogUnits {
    pub fn new(units: Vec<u64>) -> LogUnits
        ensures { result ≡ units.items }
    {
        LogUnits { units }
    }

    pub fn as_slice(&self) -> &[u64]
        ensures { result.now ≡ self.now }
    {
        self.units.as_slice()
    }

    pub fn into_vec(self) -> Vec<u64>
        ensures { result.items ≡ self }
    {
        self.units
    }
}
