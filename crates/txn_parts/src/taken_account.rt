//! An account that a transfer holds.
ghost use Rattle.std.specs.Prelude.{◌≤◌};
ghost use Rattle.lsn_space.specs.declared.opening.TheConstants.{MOST_BALANCE};

use early_locks::Taken;

/// An account as it was taken, and its balance after the legs so far.
#[derive(Drop)]
pub struct TakenAccount {
    pub taken: Taken,
    pub balance: u64,
    ghost fits: { balance ≤ MOST_BALANCE },
    ghost taken_fits: { taken.balance ≤ MOST_BALANCE },
}

/// It stands where a list of holdings has no element.
impl Default for TakenAccount {
    fn default() -> TakenAccount {
        TakenAccount {
            taken: Taken {
                account: 0,
                balance: 0,
                mark: 0,
            },
            balance: 0,
        }
    }
}
