//! A list of transfers.
ghost use Rattle.std.specs.Prelude.{◌≡◌, ◌<◌, ◌^◌, ◌++◌, ◌∷◌, [], ℕ, List, Some, None, length, slice_get, IfOk, IfErr, OnErr};
ghost use Rattle.txn_script.specs.Script.{IsScriptText, IsFirstBadLine, IsScriptFault};
ghost use Rattle.lock_core.specs.declared.job.Job.{Job};

use crate::fault::ParseFault;
use crate::lines::take_line;
use crate::pay::read_job;
use crate::stored::Stored;
use lock_core::{Job, Leg};
use lsn_space::NoMemory;
use std::alloc::Global;
use std::marker::Model;

/// Transfers, in order. Contracts see the list of them.
#[derive(Debug, Drop)]
pub struct Script {
    stored: Vec<Stored>,
    long: Vec<Job>,
}

impl Model for Script {
    ghost use Rattle.std.specs.Prelude.{List, All, map};
    ghost use Rattle.lock_core.specs.declared.job.Job.{Job};
    ghost use Rattle.txn_script.specs.StoredJob.{job_stored, IsStored};

    ghost Value = { List Job };

    ghost view = { λ script. map (job_stored script.long.items) script.stored.items };

    ghost invariant = { λ script. All (IsStored script.long.items) script.stored.items };
}

impl Script {
    /// No transfers, and room for so many.
    pub fn with_room(alloc: Global, n: u32) -> Result<Script, NoMemory>
        ensures { IfOk result (λ script. script ≡ []) }
    {
        match Vec::with_capacity(alloc, n as usize) {
            Ok(stored) => Ok(Script {
                stored,
                long: Vec::new(alloc),
            }),
            Err(_) => Err(NoMemory),
        }
    }

    /// Adds a transfer behind the others. Where there is no memory for it, these stay.
    pub fn push(&mut self, job: Job) -> Result<(), NoMemory>
        ensures added { IfOk result (λ _. self.new ≡ self.old ++ job ∷ []) }
        ensures kept { OnErr result (self.new ≡ self.old) }
    {
        if let Some(leg) = job.single() {
            return self.push_leg(leg);
        }
        let at = self.long.len();
        put(&mut self.long, job)?;
        put(&mut self.stored, Stored::Long(at))
    }

    /// Adds the transfer of one leg and no note behind the others, so that no `Job` is made of it.
    pub fn push_leg(&mut self, leg: Leg) -> Result<(), NoMemory>
        ensures added { IfOk result (λ _. self.new ≡ self.old ++ record { legs = leg ∷ []; note = None } ∷ []) }
        ensures kept { OnErr result (self.new ≡ self.old) }
    {
        put(&mut self.stored, Stored::Single(leg))
    }

    /// The number of transfers.
    pub fn count(&self) -> u64
        ensures { result ≡ length self.now }
    {
        self.stored.len() as u64
    }

    /// Makes this the transfer at that place, from 0 on.
    pub fn fetch(&self, place: u64, job: &mut Job)
        requires { place < length self.now }
        ensures { slice_get self.now place ≡ Some job.new }
    {
        match self.stored[place as usize] {
            Stored::Single(leg) => job.become_single(leg),
            Stored::Long(at) => copy_at(self.long.as_slice(), at, job),
        }
    }

    /// The transfer at this place, from 0 on.
    pub fn job(&self, place: u64) -> Job
        requires { place < length self.now }
        ensures { slice_get self.now place ≡ Some result }
    {
        let mut job = Job::new();
        self.fetch(place, &mut job);
        job
    }
}

/// Makes this the job at that place. It is no part of `fetch`, which would clear the place of a copy as it begins.
fn copy_at(jobs: &[Job], at: usize, job: &mut Job)
    requires { at < length jobs.now }
    ensures { slice_get jobs.now at ≡ Some job.new }
{
    *job = jobs[at].copy();
}

fn put<T: Drop>(list: &mut Vec<T>, element: T) -> Result<(), NoMemory>
    ensures put { IfOk result (λ _. list.new.items ≡ list.old.items ++ element ∷ []) }
    ensures kept { OnErr result (list.new.items ≡ list.old.items) }
{
    match list.push(element) {
        Ok(()) => Ok(()),
        Err(_) => Err(NoMemory),
    }
}

/// The transfers of a script for a log of so many accounts. An empty line is no transfer.
pub fn parse(alloc: Global, bytes: &[u8], accounts: u32) -> Result<Script, ParseFault>
    ensures read { IfOk result (IsScriptText accounts bytes.now) }
    ensures fault { IfErr result (IsScriptFault accounts bytes.now) }
{
    let mut script = Script::with_room(alloc, 0)?;
    let mut rest = bytes;
    let mut number = 0;
    'lines: while let Some((line, after)) = take_line(rest) {
        number += 1;
        if !line.is_empty() {
            let Some(job) = read_job(line, accounts) else {
                return Err(ParseFault::Line { line: number });
            };
            script.push(job)?;
        }
        rest = after;
    }
    Ok(script)
}

/// A law: for fewer than 2 ^ 32 accounts no text has two lists of transfers; for no number two first lines outside, or one of each.
pub fn script_one_reading()
    ensures jobs { (accounts : ℕ) (bytes : List ℕ) (js ks : List Job) → accounts < 2 ^ 32 → IsScriptText accounts bytes js
        → IsScriptText accounts bytes ks → js ≡ ks }
    ensures line { (accounts : ℕ) (bytes : List ℕ) (a b : ℕ) → IsFirstBadLine accounts bytes a
        → IsFirstBadLine accounts bytes b → a ≡ b }
    ensures apart { (accounts : ℕ) (bytes : List ℕ) (js : List Job) (line : ℕ) → IsScriptText accounts bytes js
        → IsFirstBadLine accounts bytes line → ⊥ }
{}
