//! The transfers and accounts that `demo` generates.
ghost use Rattle.std.specs.Prelude.{◌≡◌, false, IfOk};
ghost use Rattle.txn_script.specs.Generator.{generated_jobs};
ghost use Rattle.run_plan.specs.Generated.{generated_rows};

use crate::plan::Plan;
use command_line::RunOptions;
use end_lines::Voice;
use lsn_space::{Balances, NoMemory};
use std::alloc::Global;
use txn_script::{GENERATED_ACCOUNTS, GENERATED_BALANCE, Script, make};

/// What is generated: the transfers of a seed, and the accounts between which they go.
#[derive(Drop)]
pub struct Generated {
    pub script: Script,
    pub accounts: Balances,
}

/// The plan of `demo`: the ends are counted and not told, the workers, the ring and the slots are as was asked, and no worker waits.
pub fn plan_of_demo(options: &RunOptions) -> Plan
    ensures workers { result.workers ≡ options.now.workers }
    ensures ring { result.ring ≡ options.now.ring }
    ensures slots { result.slots ≡ options.now.slots }
    ensures voice { result.voice ≡ Voice.Count }
    ensures wait { result.wait ≡ false }
{
    Plan {
        workers: options.workers,
        ring: options.ring,
        slots: options.slots,
        voice: Voice::Count,
        wait: false,
    }
}

/// Generates so many transfers from a seed, and their accounts.
pub fn generate(alloc: Global, transfers: u32, seed: u32) -> Result<Generated, NoMemory>
    ensures script { IfOk result (λ made. made.script ≡ generated_jobs transfers seed) }
    ensures accounts { IfOk result (λ made. made.accounts.rows ≡ generated_rows) }
{
    let script = make(alloc, transfers, seed)?;
    let accounts = generated_accounts(alloc)?;
    Ok(Generated { script, accounts })
}

/// The accounts between which generated transfers go.
fn generated_accounts(alloc: Global) -> Result<Balances, NoMemory>
    ensures { IfOk result (λ accounts. accounts.rows ≡ generated_rows) }
{
    let mut accounts = Balances::make(alloc, GENERATED_ACCOUNTS)?;
    'accounts: for _ in 0..GENERATED_ACCOUNTS {
        accounts.push(GENERATED_BALANCE, 0);
    }
    Ok(accounts)
}
