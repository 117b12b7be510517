//! A table of two accounts, its workers, and a job between the two.
ghost use Rattle.std.specs.Prelude.{◌≡◌, ◌≤◌, ◌+◌, [], ◌∷◌, None, IfOk};
ghost use Rattle.lsn_space.specs.declared.opening.TheConstants.{MOST_AMOUNT};
ghost use Rattle.log_record.specs.Spelling.{IsTxn};
ghost use Rattle.lock_core.specs.Transfers.{IsAllowedJob};
ghost use Rattle.lsn_space.specs.declared.lsn.TheConstants.{MOST_SLOTS};
ghost use Rattle.log_table.specs.HiredWorkers.{HasHired};
ghost use Rattle.test_rig.specs.NotedJobs.{IsNew, MayInsert};
ghost use Rattle.test_rig.specs.Tables.{AreBalances, IsTableOf};

use lock_core::{Job, Leg, Legs};
use log_table::{LogTable, Seat, Start};
use lsn_space::{Balances, Lsn, NoMemory};
use std::alloc::Global;

/// A table of two accounts with these balances, over a log that ends here, and the flusher's seat. The
/// ring has 1024 units, and there are no slots.
pub fn table_of(alloc: Global, balances: (u64, u64), end: u32) -> Result<(LogTable, Seat), NoMemory>
    requires balances { AreBalances balances }
    ensures { IfOk result (λ made. IsTableOf balances end 0 made.0 made.1) }
{
    table_with_slots(alloc, balances, end, 0)
}

/// Such a table with so many slots.
pub fn table_with_slots(
    alloc: Global,
    balances: (u64, u64),
    end: u32,
    slots: u32,
) -> Result<(LogTable, Seat), NoMemory>
    requires balances { AreBalances balances }
    requires slots { slots ≤ MOST_SLOTS }
    ensures { IfOk result (λ made. IsTableOf balances end slots made.0 made.1) }
{
    let mut accounts = Balances::make(alloc, 2)?;
    accounts.push(balances.0, 0);
    accounts.push(balances.1, 0);
    LogTable::make(
        alloc,
        Start {
            start: Lsn::new(end),
            ring: 1024,
            slots,
            accounts,
        },
    )
}

/// The worker of the next number, whose first job may have this transaction number or one above it.
pub fn worker(table: &LogTable, flusher_seat: &mut Seat, number: u32, first: u32) -> Seat
    requires flusher_seat { HasHired table.now number flusher_seat.old }
    requires first { IsTxn first }
    ensures flusher_seat { HasHired table.now (number + 1) flusher_seat.new }
    ensures worker { result.worker ≡ number }
    ensures unused { IsNew table.now result }
    ensures free { MayInsert table.now first result }
{
    table.hire(flusher_seat, number)
}

/// A job that moves so much from account 0 to account 1.
pub fn job_of(amount: u32) -> Job
    requires amount { (1 ≤ amount) × (amount ≤ MOST_AMOUNT) }
    ensures job { result ≡ record { legs = (0, 1, amount) ∷ []; note = None } }
    ensures allowed { IsAllowedJob 2 result }
{
    let mut legs = Legs::new();
    legs.push(Leg::from((0, 1, amount)));
    Job { legs, note: None }
}
