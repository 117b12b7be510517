//! A program of one's own over a log: what one account has, with a promise of its own over that of `recover`.
#![tactic(auto)]

ghost use Rattle.std.specs.Prelude.{IfOk, IfErr};
ghost use Rattle.log_recovery.specs.Recovery.{IsFaultOf};
ghost use Rattle.balance_example.specs.Balance.{HasBalance};

use log_recovery::{RecoverFault, recover};
use std::alloc::Global;

/// The account's balance in the log that these bytes are; None where the log hasn't this account.
pub fn balance_in(alloc: Global, log: &[u8], account: u32) -> Result<Option<u64>, RecoverFault>
    ensures found { IfOk result (HasBalance log.now account) }
    ensures fault { IfErr result (IsFaultOf log.now) }
{
    let recovered = recover(alloc, log)?;
    let accounts = &recovered.accounts;
    if account < accounts.count() {
        Ok(Some(accounts.at(account).0))
    } else {
        Ok(None)
    }
}
