//! Why a text of balances or transfers wasn't read.
ghost use Rattle.std.specs.Prelude.{◌≡◌};
ghost use Rattle.txn_script.specs.declared.fault.ParseFault.TheVariants as fault;

use lsn_space::NoMemory as Refused;
use std::alloc::AllocFailed;

/// Why a text wasn't read.
#[derive(Clone, Copy, Debug, PartialEq, Eq)]
pub enum ParseFault {
    /// The first line outside the grammar, counted from 1.
    Line { line: u64 },

    NoMemory,
}

impl From<Refused> for ParseFault {
    ghost from_gives = { λ _ f. f ≡ fault.NoMemory };

    fn from(_: Refused) -> Self {
        ParseFault::NoMemory
    }
}

impl<T: Drop> From<AllocFailed<T>> for ParseFault {
    ghost from_gives = { λ _ f. f ≡ fault.NoMemory };

    fn from(_: AllocFailed<T>) -> Self {
        ParseFault::NoMemory
    }
}
