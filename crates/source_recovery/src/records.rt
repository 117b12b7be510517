//! The records of units that come piece by piece.

ghost use Rattle.std.specs.Prelude.{◌≡◌, ◌⊎◌, ◌<◌, ◌≤◌, ◌+◌, [], ℕ, List, length, IfOk, IfErr, IsErrOf};
ghost use Rattle.log_record.specs.declared.units.TheConstants.{LONGEST_RECORD};
ghost use Rattle.lsn_space.specs.Opening.{Opening, IsSnapshot};
ghost use Rattle.lsn_space.specs.declared.lsn.TheConstants.{LAST};
ghost use Rattle.log_recovery.specs.JudgedUnits.{HasTakenUnits, IsUnitsFaultOf};
ghost use Rattle.log_recovery.specs.ListedRecords.{EndsWith};
ghost use Rattle.source_recovery.specs.Passing.{PassesTo, ReadsFew, TakesFew};
ghost use Rattle.source_recovery.specs.Taker.{AreNext, HasTakenTo, StandsAt};

use crate::asked::TakesAsked;
use crate::passing::{Stop, leave_out, read_records, take_records};
use lock_core::Why;
use log_record::LONGEST_RECORD;
use log_recovery::{UnitsFault, place_of};
use lsn_space::{Lsn, NoMemory, Opening};
use std::alloc::Global;

/// What takes the records of units that come piece by piece.
#[derive(Drop)]
pub struct UnitsTaker<T> {
    state: State<T>,

    /// The LSN of the first unit that isn't passed.
    next: Lsn,
}

/// What the units that are passed say.
#[derive(Drop)]
enum State<T> {
    /// Their records are taken.
    Taking(T),

    /// The record that starts at this LSN is the first that fails a test, and this is the first test that it fails. Those behind it
    /// are only read: a place at which none begins hides it.
    Failed { lsn: Lsn, why: Why },

    /// Records lead to this LSN, and none begins there.
    Bad { lsn: Lsn },
}

impl<T: TakesAsked> UnitsTaker<T> {
    /// One that is asked for this, and has taken no record behind this opening.
    pub fn new(alloc: Global, opening: &Opening, asked: u32) -> Result<UnitsTaker<T>, NoMemory>
        requires { (opening.now.accounts ≡ []) ⊎ IsSnapshot opening.now }
        ensures { IfOk result (λ taker. (units : List ℕ) → opening.now.lsn + length units ≤ LAST
            → HasTakenTo (T.has_taken asked) opening.now units units taker) }
    {
        Ok(UnitsTaker {
            state: State::Taking(T::after(alloc, opening, asked)?),
            next: opening.lsn,
        })
    }

    /// Takes records of these units, of which more may come, until fewer units are left than the longest record
    /// has. After a fault the taker is spent.
    pub fn take(&mut self, units: &mut Vec<u64>) -> Result<(), NoMemory>
        requires { AreNext T.has_taken units.old.items self.old }
        ensures few { IfOk result (λ _. length units.new.items < LONGEST_RECORD) }
        ensures taken { IfOk result (λ _. (asked : ℕ) (opening : Opening) (all : List ℕ)
            → HasTakenTo (T.has_taken asked) opening all units.old.items self.old
            → HasTakenTo (T.has_taken asked) opening all units.new.items self.new) }
    {
        let count = units.len();
        let left = self.pass(units.as_slice(), LONGEST_RECORD)?.len();
        leave_out(units, count - left);
        Ok(())
    }

    /// Takes the records of the rest of the units, of which no more come, and hands out what has taken them all.
    pub fn finish(mut self, units: &[u64]) -> Result<T, UnitsFault>
        requires { AreNext T.has_taken units.now self }
        ensures taken { (asked : ℕ) (opening : Opening) (all : List ℕ) → HasTakenTo (T.has_taken asked) opening all units.now self
            → IfOk result (HasTakenUnits (T.has_taken asked) opening all) }
        ensures fault { (asked : ℕ) (opening : Opening) (all : List ℕ) → HasTakenTo (T.has_taken asked) opening all units.now self
            → IfErr result (IsUnitsFaultOf opening all) }
    {
        match self.pass(units, 1) {
            Ok(_) => self.answer(),
            Err(NoMemory) => Err(UnitsFault::NoMemory),
        }
    }

    /// What has taken all units, or what is wrong with them.
    fn answer(self) -> Result<T, UnitsFault>
        ensures taken { (asked : ℕ) (opening : Opening) (all : List ℕ) → StandsAt (T.has_taken asked) 1 opening all [] self
            → IfOk result (HasTakenUnits (T.has_taken asked) opening all) }
        ensures fault { (asked : ℕ) (opening : Opening) (all : List ℕ) → StandsAt (T.has_taken asked) 1 opening all [] self
            → IfErr result (IsUnitsFaultOf opening all) }
        ensures memory { IsErrOf result UnitsFault.NoMemory → ⊥ }
    {
        let UnitsTaker { state, .. } = self;
        match state {
            State::Taking(taker) => Ok(taker),
            State::Failed { lsn, why } => Err(UnitsFault::Unlawful { lsn, why }),
            State::Bad { lsn } => Err(UnitsFault::BadRec { lsn }),
        }
    }

    /// Passes units until fewer than so many are left.
    fn pass<'a>(&mut self, units: &'a [u64], least: usize) -> Result<&'a [u64], NoMemory>
        requires taken { AreNext T.has_taken units.now self.old }
        requires some { 0 < least }
        requires most { least ≤ LONGEST_RECORD }
        ensures few { IfOk result (λ rest. length rest.now < least) }
        ensures passed { IfOk result (λ rest. PassesTo T.has_taken least units.now rest.now self.old self.new) }
    {
        let taken = self.take_on(units, least)?;
        let rest = self.read_on(taken, least);
        if rest.len() < least {
            return Ok(rest);
        }
        let (_, end) = rest.split_at(rest.len());
        self.next = place_of(self.next, rest, end);
        Ok(end)
    }

    /// Takes records while at least so many units are left, unless one of them failed before.
    fn take_on<'a>(&mut self, units: &'a [u64], least: usize) -> Result<&'a [u64], NoMemory>
        requires taken { AreNext T.has_taken units.now self.old }
        requires some { 0 < least }
        requires most { least ≤ LONGEST_RECORD }
        ensures few { IfOk result (λ rest. TakesFew least rest.now self.new.state) }
        ensures passed { IfOk result (λ rest. PassesTo T.has_taken least units.now rest.now self.old self.new) }
    {
        let State::Taking(taker) = &mut self.state else {
            return Ok(units);
        };
        let (rest, stop) = take_records(taker, self.next, units, least);
        self.next = place_of(self.next, units, rest);
        match stop {
            Stop::Few => {}
            Stop::Bad { lsn } => self.state = State::Bad { lsn },
            Stop::Failed { lsn, why } => self.state = State::Failed { lsn, why },
            Stop::NoMemory => return Err(NoMemory),
        }
        Ok(rest)
    }

    /// Reads records while at least so many units are left, where one failed before.
    fn read_on<'a>(&mut self, units: &'a [u64], least: usize) -> &'a [u64]
        requires stands { (asked : ℕ) × (opening : Opening) × (all : List ℕ)
            × StandsAt (T.has_taken asked) least opening all units.now self.old }
        requires some { 0 < least }
        requires few { TakesFew least units.now self.old.state }
        ensures ends { EndsWith units.now result.now }
        ensures few { ReadsFew least result.now self.new.state }
        ensures stands { (asked : ℕ) (opening : Opening) (all : List ℕ) → StandsAt (T.has_taken asked) least opening all units.now self.old
            → StandsAt (T.has_taken asked) least opening all result.now self.new }
    {
        let State::Failed { .. } = &self.state else {
            return units;
        };
        let rest = read_records(units, least);
        self.next = place_of(self.next, units, rest);
        if rest.len() >= least {
            self.state = State::Bad { lsn: self.next };
        }
        rest
    }
}
