//! What stands before a list of records, and the limits of its accounts.
ghost use Rattle.std.specs.Prelude.{◌≡◌, IfOk};
ghost use Rattle.lsn_space.specs.Opening.{no_opening};

use crate::balances::Balances;
use crate::lsn::Lsn;
use crate::memory::NoMemory;
use std::alloc::Global;
use std::marker::Model;

/// The most accounts of a log, so an account is below this.
pub const MOST_ACCOUNTS: u32 = 4096;

/// The most that a transfer moves in one leg.
pub const MOST_AMOUNT: u32 = 0x7FFF_FFFF;

/// The greatest balance of an account.
pub const MOST_BALANCE: u64 = 0x3FFF_FFFF_FFFF_FFFF;

/// What stands before a list of records. Before a whole log it is nothing: 0, 0 and no account. Contracts see the pairs of the
/// accounts, and not for how many there is room.
#[derive(Debug, Drop)]
pub struct Opening {
    /// Where the list begins.
    pub lsn: Lsn,

    /// The greatest transaction number before the list.
    pub txn: u32,

    /// The balance of each account, and the end LSN of its last commit.
    pub accounts: Balances,
}

impl Model for Opening {
    ghost use Rattle.lsn_space.specs.Opening.{Opening};

    ghost Value = { Opening };

    ghost view = { λ o. record { lsn = o.lsn; txn = o.txn; accounts = o.accounts.rows } };
}

impl Opening {
    /// Nothing: what stands before a whole log.
    pub fn none(alloc: Global) -> Result<Opening, NoMemory>
        ensures { IfOk result (λ opening. opening ≡ no_opening) }
    {
        Ok(Opening {
            lsn: Lsn::new(0),
            txn: 0,
            accounts: Balances::make(alloc, 0)?,
        })
    }
}
