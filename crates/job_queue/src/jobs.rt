//! The transfers of a script in a queue: how it is made, how workers get its passes and give them back, and what all took.
ghost use Rattle.std.specs.Prelude.{◌≡◌, ◌≤◌, ◌<◌, ◌+◌, [], length, None, IfOk};
ghost use Rattle.log_record.specs.declared.limits.TheConstants.{LAST_TXN};
ghost use Rattle.job_queue.specs.Lending.{EnlistsRows, DismissesRows};
ghost use Rattle.job_queue.specs.Passes.{pass_in, rows_in, places_back, marks_back, passes_out, workers_of, AreAllTaken, HasFirstPass, HasPassOf, IsSameQueue};

use crate::filling::filled;
use crate::queue::Queue;
use crate::rows::Rows;
use crate::takings::{Balances, Counts, Dismisses, Enlists, Takings};
use crossbeam_queue::Pass;
use lsn_space::NoMemory;
use std::alloc::Global;
use std::sync::Wait;
use txn_script::Script;

/// The transfers of a script in a queue, and the queue's first pass, of which each worker's is made, and which takes each back. It can't be
/// shared by threads, as the queue can.
#[derive(Drop)]
pub struct Jobs {
    pub(crate) queue: Queue,
    pub(crate) pass: Pass<u32, Takings>,
}

impl Jobs {
    /// Puts all places of the script, and behind them a mark for each of so many workers. No pass is out.
    pub fn make<R: Wait>(
        rt: &R,
        alloc: Global,
        script: Script,
        first: u64,
        workers: u32,
    ) -> Result<Jobs, NoMemory>
        requires some { 1 ≤ first }
        requires shared { 1 ≤ workers }
        requires numbered { first + length script ≤ LAST_TXN }
        ensures jobs { IfOk result HasFirstPass }
        ensures script { IfOk result (λ jobs. jobs.queue.script ≡ script) }
        ensures first { IfOk result (λ jobs. jobs.queue.first ≡ first) }
        ensures workers { IfOk result (λ jobs. workers_of jobs ≡ workers) }
        ensures out { IfOk result (λ jobs. passes_out jobs ≡ 0) }
        ensures none { IfOk result (λ jobs. (places_back jobs ≡ []) × (marks_back jobs ≡ [])) }
    {
        let (line, pass) = filled(rt, alloc, script.count() as u32, workers)?;
        let queue = Queue {
            script,
            first,
            line,
        };
        Ok(Jobs { queue, pass })
    }

    /// How many transfers the script has.
    pub fn count(&self) -> u64
        ensures { result ≡ length self.now.queue.script }
    {
        self.queue.script.count()
    }

    /// What workers share.
    pub fn queue(&self) -> &Queue
        ensures { result.now ≡ self.now.queue }
    {
        &self.queue
    }

    /// Gives a worker's rows a pass, which may take one mark. It asks for no memory.
    pub fn enlist(&mut self, _alloc: Global, rows: &mut Rows) -> Result<(), NoMemory>
        requires jobs { HasFirstPass self.old }
        requires empty { rows_in rows.old ≡ [] }
        requires none { pass_in rows.old ≡ None }
        requires mark { passes_out self.old + length (marks_back self.old) < workers_of self.old }
        ensures { EnlistsRows self.old self.new rows.old rows.new result }
    {
        let queue = &self.queue;
        rows.pass = Some(queue.line.another::<Enlists>(&mut self.pass));
        Ok(())
    }

    /// Takes the pass of these rows back, and answers them without one.
    pub fn dismiss(&mut self, rows: Rows) -> Rows
        requires jobs { HasFirstPass self.old }
        requires pass { HasPassOf self.old.queue rows }
        ensures { DismissesRows self.old self.new rows result }
    {
        let mut rows = rows;
        let Some(pass) = rows.pass.take() else {
            unreachable!()
        };
        let queue = &self.queue;
        queue.line.absorb::<Dismisses>(&mut self.pass, pass);
        queue.line.learn_as::<Balances>(&mut self.pass);
        rows
    }

    /// Once all passes are back: what they took are the numbers below some one, each once, and all places where one took its mark.
    pub fn count_taken(&mut self)
        requires jobs { HasFirstPass self.old }
        requires out { passes_out self.old ≡ 0 }
        ensures jobs { HasFirstPass self.new }
        ensures same { IsSameQueue self.old self.new }
        ensures out { passes_out self.new ≡ 0 }
        ensures back { (places_back self.new ≡ places_back self.old) × (marks_back self.new ≡ marks_back self.old) }
        ensures taken { AreAllTaken (length self.new.queue.script) (places_back self.new) (marks_back self.new) }
    {
        let queue = &self.queue;
        queue.line.learn_as::<Counts>(&mut self.pass);
    }
}
