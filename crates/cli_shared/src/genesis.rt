//! The list of a new log, spelled.
ghost use Rattle.std.specs.Prelude.{◌≡◌, ◌≤◌, ◌<◌, ◌+◌, ◌*◌, ◌++◌, length, All, map, IfOk};
ghost use Rattle.log_record.specs.LogList.{units_of};
ghost use Rattle.lsn_space.specs.declared.opening.TheConstants.{MOST_ACCOUNTS};
ghost use Rattle.log_record.specs.Spelling.{spelling, IsBalance};
ghost use Rattle.log_record.specs.declared.rec.Rec.TheVariants.{Genesis};
ghost use Rattle.cli_shared.specs.Creation.{genesis_list};

use log_record::{Rec, spell};
use lsn_space::{Balances, NoMemory};
use segment_file::Batch;
use std::alloc::Global;

/// The units of the accounts' Genesis records.
pub fn genesis(alloc: Global, balances: &Balances) -> Result<Batch, NoMemory>
    requires few { length balances.now.rows ≤ MOST_ACCOUNTS }
    requires each { All (λ row. IsBalance row.0) balances.now.rows }
    ensures { IfOk result (λ batch. batch.units ≡ units_of (genesis_list (map (λ row. row.0) balances.now.rows))) }
{
    let mut batch = Batch::make(alloc, 2 * balances.count())?;
    'accounts: for account in 0..balances.count() {
        let (balance, _) = balances.at(account);
        push_genesis(&mut batch, account, balance);
    }
    Ok(batch)
}

/// Adds the units of one Genesis.
fn push_genesis(batch: &mut Batch, account: u32, balance: u64)
    requires account { account < MOST_ACCOUNTS }
    requires balance { IsBalance balance }
    requires room { length batch.old.units + 2 ≤ batch.old.room }
    ensures { batch.new ≡ record batch.old { units = batch.old.units ++ spelling (Genesis account balance) } }
{
    let units = spell(&Rec::Genesis { account, balance });
    'units: for unit in units.as_slice() {
        batch.push(*unit);
    }
}
