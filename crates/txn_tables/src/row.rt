//! A row of numbers, each at its place.

ghost use Rattle.std.specs.Prelude.{◌≡◌, ◌<◌, ◌≤◌, ◌↔◌, ℕ, length, IsTrue, OnOk, OnErr};

use lsn_space::NoMemory;
use std::alloc::Global;

/// A number for each place, 0 where none was put.
#[derive(Drop)]
pub struct Row {
    numbers: Vec<u32>,
}

impl Row {
    ghost use Rattle.txn_tables.specs.Rows.{number_at, PutsNumber};

    pub fn new(alloc: Global) -> Row
        ensures { length result.numbers.items ≡ 0 }
    {
        Row {
            numbers: Vec::new(alloc),
        }
    }

    pub fn is_empty(&self) -> bool
        ensures { IsTrue result ↔ (length self.now.numbers.items ≡ 0) }
    {
        self.numbers.is_empty()
    }

    pub fn at(&self, place: u32) -> u32
        ensures { result ≡ number_at self.now place }
    {
        match self.numbers.get(place as usize) {
            Some(number) => *number,
            None => 0,
        }
    }

    /// Puts a number. The row grows at most up to this place.
    pub fn put(&mut self, place: u32, number: u32) -> Result<(), NoMemory>
        ensures put { OnOk result (PutsNumber self.old self.new place number) }
        ensures kept { OnErr result (self.new.numbers.items ≡ self.old.numbers.items) }
        ensures bound { (most : ℕ) → place < most → length self.old.numbers.items ≤ most → length self.new.numbers.items ≤ most }
    {
        let place = place as usize;
        if place >= self.numbers.len() {
            let Ok(()) = self.numbers.resize(place + 1, 0) else {
                return Err(NoMemory);
            };
        }
        self.numbers[place] = number;
        Ok(())
    }
}
