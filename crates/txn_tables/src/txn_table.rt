//! The table itself: places in a row, and scattered nodes for the transactions that have none.

ghost use Rattle.std.specs.Prelude.{◌≡◌, ◌<◌, ◌≤◌, ◌+◌, ◌*◌, ◌↔◌, ℕ, None, length, IsTrue};
ghost use Rattle.txn_tables.specs.declared.txn_table.TheConstants.{FIRST_PLACES};

use crate::row::Row;
use crate::scattered::Scattered;
use lsn_space::NoMemory;
use std::alloc::Global;

/// How many places there may be before anything was put.
pub const FIRST_PLACES: u32 = 4096;

/// A number for each transaction, 0 where none was put. Transactions from near the first that is put, up to a number that
/// grows by two with each that is put there, get a place in a row. Others are kept as scattered nodes, so that the memory
/// is in proportion to what was put.
#[derive(Drop)]
pub struct TxnTable {
    /// The transaction whose place is the row's first.
    first: u32,
    /// How often something was put into the row.
    puts: u32,
    row: Row,
    scattered: Scattered,
    ghost bounded: { length row.numbers.items ≤ FIRST_PLACES + 2 * puts },
}

impl TxnTable {
    ghost use Rattle.txn_tables.specs.Searches.{scattered_value};
    ghost use Rattle.txn_tables.specs.Values.{placed_value, value_at, Puts, IsPlaced};

    pub fn new(alloc: Global) -> TxnTable
        ensures { (txn : ℕ) → value_at result txn ≡ 0 }
    {
        TxnTable {
            first: 0,
            puts: 0,
            row: Row::new(alloc),
            scattered: Scattered::new(alloc),
        }
    }

    pub fn value(&self, txn: u32) -> u32
        ensures { result ≡ value_at self.now txn }
    {
        match self.scattered.value(txn) {
            Some(value) => value,
            None => self.in_row(txn),
        }
    }

    /// What stands in the row for a transaction, 0 where it has no place there.
    fn in_row(&self, txn: u32) -> u32
        ensures { result ≡ placed_value self.now txn }
    {
        if txn < self.first {
            0
        } else {
            self.row.at(txn - self.first)
        }
    }

    /// Puts a number, and answers the one before it.
    pub fn put(&mut self, txn: u32, value: u32) -> Result<u32, NoMemory>
        ensures { Puts self.old self.new txn value result }
    {
        if self.row.is_empty() {
            self.begin_near(txn);
        }
        if self.has_place(txn) && self.scattered.value(txn).is_none() {
            self.put_in_place(txn, value)
        } else {
            self.put_scattered(txn, value)
        }
    }

    /// Has the row begin near a transaction. Some before it get a place too, as numbers needn't come in their order.
    fn begin_near(&mut self, txn: u32)
        requires { length self.old.row.numbers.items ≡ 0 }
        ensures values { (other : ℕ) → value_at self.new other ≡ value_at self.old other }
        ensures puts { self.new.puts ≡ self.old.puts }
    {
        self.first = txn.saturating_sub(FIRST_PLACES / 2);
    }

    /// Whether the transaction has a place in the row, or gets one unless it was put among the scattered ones before.
    fn has_place(&self, txn: u32) -> bool
        ensures { IsTrue result ↔ IsPlaced self.now txn }
    {
        txn >= self.first
            && u64::from(txn - self.first) < u64::from(FIRST_PLACES) + 2 * u64::from(self.puts)
    }

    fn put_in_place(&mut self, txn: u32, value: u32) -> Result<u32, NoMemory>
        requires placed { IsPlaced self.old txn }
        requires alone { scattered_value self.old.scattered txn ≡ None }
        ensures { Puts self.old self.new txn value result }
    {
        let before = self.in_row(txn);
        let Ok(()) = self.row.put(txn - self.first, value) else {
            return Err(NoMemory);
        };
        self.puts = self.puts.saturating_add(1);
        Ok(before)
    }

    fn put_scattered(&mut self, txn: u32, value: u32) -> Result<u32, NoMemory>
        ensures { Puts self.old self.new txn value result }
    {
        match self.scattered.put(txn, value) {
            Ok(Some(before)) => Ok(before),
            Ok(None) => Ok(self.in_row(txn)),
            Err(NoMemory) => Err(NoMemory),
        }
    }
}
