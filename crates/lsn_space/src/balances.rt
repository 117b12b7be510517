//! The balances of accounts, each with the end of its last commit.
ghost use Rattle.std.specs.Prelude.{◌≡◌, ◌<◌, ◌++◌, ◌∷◌, [], length, slice_get, slice_set, Some, IfOk};

use crate::memory::NoMemory;
use std::alloc::Global;
use std::marker::Model;

/// The balance of each account, from account 0 on, and the LSN at which its last commit ends.
/// Contracts see the list of these pairs, and for how many accounts room was made.
#[derive(Debug, Drop)]
pub struct Balances {
    rows: Vec<(u64, u32)>,
    most: u32,
}

impl Model for Balances {
    ghost use Rattle.std.specs.Prelude.{◌≤◌, length, vec_capacity};
    ghost use Rattle.lsn_space.specs.Accounts.{Accounts};

    ghost Value = { Accounts };

    ghost view = { λ b. record { rows = b.rows.items; room = b.most } };

    ghost invariant = { λ b. (b.most ≤ vec_capacity b.rows) × (length b.rows.items ≤ b.most) };
}

impl Balances {
    /// No account, with room for `n`. No later call takes memory.
    pub fn make(alloc: Global, n: u32) -> Result<Balances, NoMemory>
        ensures empty { IfOk result (λ b. b.rows ≡ []) }
        ensures room { IfOk result (λ b. b.room ≡ n) }
    {
        match Vec::with_capacity(alloc, n as usize) {
            Ok(rows) => Ok(Balances { rows, most: n }),
            Err(_) => Err(NoMemory),
        }
    }

    /// Appends the next account, with the end LSN of its last commit (0 where it has none).
    pub fn push(&mut self, balance: u64, mark: u32)
        requires { length self.old.rows < self.old.room }
        ensures { self.new ≡ record self.old { rows = self.old.rows ++ (balance, mark) ∷ [] } }
    {
        self.rows.push_reserved((balance, mark));
    }

    /// Gives the account this balance, and its last commit this end LSN. The other accounts stay.
    pub fn set(&mut self, account: u32, balance: u64, mark: u32)
        requires { account < length self.old.rows }
        ensures { self.new ≡ record self.old { rows = slice_set self.old.rows account (balance, mark) } }
    {
        self.rows[account as usize] = (balance, mark);
    }

    /// The balance of the account, and the end LSN of its last commit.
    pub fn at(&self, account: u32) -> (u64, u32)
        requires { account < length self.now.rows }
        ensures { slice_get self.now.rows account ≡ Some result }
    {
        self.rows[account as usize]
    }

    /// The number of accounts.
    pub fn count(&self) -> u32
        ensures { result ≡ length self.now.rows }
    {
        let _most = self.most;
        self.rows.len() as u32
    }
}
