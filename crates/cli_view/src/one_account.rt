//! One account of a log, as its reading comes by.

use ledger_view::AccountView;
use lock_core::JudgeFault;
use log_record::Rec;
use lsn_space::{Lsn, NoMemory, Opening};
use source_recovery::TakesAsked;
use std::alloc::Global;

/// Takes a list of records, and keeps what it did to one account.
#[derive(Drop)]
pub struct OneAccount(pub AccountView);

impl TakesAsked for OneAccount {
    ghost use Rattle.cli_view.specs.OneAccount.{HasKeptOne};

    ghost has_taken = { HasKeptOne };

    #[inline(always)]
    fn after(alloc: Global, opening: &Opening, asked: u32) -> Result<OneAccount, NoMemory> {
        let view = AccountView::make(alloc, opening, asked)?;
        Ok(OneAccount(view))
    }

    #[inline(always)]
    fn take(&mut self, lsn: Lsn, rec: &Rec) -> Result<(), JudgeFault> {
        self.0.add(lsn, rec)
    }

    ghost lawful = { λ asked opening taker h taken. taken.judged.ledger.judged.lawful };
}
