//! The accounts of a log at one LSN, copied out where its reading comes by there.

ghost use Rattle.std.specs.Prelude.{◌≡◌, ◌<◌, List, ℕ, IfOk};
ghost use Rattle.log_record.specs.declared.rec.Placed.{Placed};
ghost use Rattle.lock_core.specs.History.{end_from};
ghost use Rattle.lock_core.specs.Sums.{Opening};
ghost use Rattle.lock_core.specs.Taking.{HasJudged};
ghost use Rattle.cli_view.specs.Balances.{HasBalances};
ghost use Rattle.cli_view.specs.AccountsAt.{HasTakenAt, IsAnswerAt};

use lock_core::{Judge, JudgeFault};
use log_record::Rec;
use lsn_space::{Balances, Lsn, NoMemory};
use source_recovery::TakesAsked;
use std::alloc::Global;

/// Takes a list of records, and keeps the balances that it leaves at one LSN, if a record starts there.
#[derive(Drop)]
pub struct AccountsAt {
    asked: u32,
    judge: Judge,
    found: Option<Balances>,
    alloc: Global,
}

/// The balance of each account that the judge has.
fn balances_of(alloc: Global, judge: &Judge) -> Result<Balances, NoMemory>
    ensures { IfOk result (λ balances. (opening : Opening) (h : List Placed) → HasJudged opening judge.now h
        → HasBalances opening h balances.rows) }
{
    let count = judge.accounts();
    let mut balances = Balances::make(alloc, count)?;
    'accounts: for account in 0..count {
        balances.push(judge.balance(account), 0);
    }
    Ok(balances)
}

impl AccountsAt {
    /// The balances at the LSN that was asked for, if it is a boundary of the list that was taken, which ends here.
    pub fn answer(self, end: Lsn) -> Result<Option<Balances>, NoMemory>
        ensures { IfOk result (λ found. (asked : ℕ) (opening : Opening) (h : List Placed) → HasTakenAt asked opening self h
            → end ≡ end_from opening.state.end h → IsAnswerAt asked opening h found) }
    {
        let AccountsAt {
            asked,
            judge,
            found,
            alloc,
        } = self;
        if end.units() != asked {
            return Ok(found);
        }
        let balances = balances_of(alloc, &judge)?;
        Ok(Some(balances))
    }
}

impl TakesAsked for AccountsAt {
    ghost use Rattle.cli_view.specs.AccountsAt.{HasTakenAt};

    ghost has_taken = { HasTakenAt };

    fn after(
        alloc: Global,
        opening: &lsn_space::Opening,
        asked: u32,
    ) -> Result<AccountsAt, NoMemory> {
        Ok(AccountsAt {
            asked,
            judge: Judge::after(alloc, opening)?,
            found: None,
            alloc,
        })
    }

    fn take(&mut self, lsn: Lsn, rec: &Rec) -> Result<(), JudgeFault> {
        if lsn.units() != self.asked {
            return self.judge.take(lsn, rec);
        }
        match balances_of(self.alloc, &self.judge) {
            Ok(balances) => self.found = Some(balances),
            Err(NoMemory) => return Err(JudgeFault::NoMemory),
        }
        self.judge.take(lsn, rec)
    }

    ghost lawful = { λ asked opening taker h taken. taken.judged.ledger.judged.lawful };
}
