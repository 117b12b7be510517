//! A worker's pass takes what is next.
ghost use Rattle.std.specs.Prelude.{◌≡◌, [], IfSome, IfNone};
ghost use Rattle.crossbeam_queue.specs.Passes.{view};
ghost use Rattle.job_queue.specs.Passes.{HasPassOf, IsWorkersPass, KeepsRows, marks_in, TakesMark, TakesPlace};
ghost use Rattle.job_queue.specs.Takings.{TakesNext};

use crate::queue::Queue;
use crate::rows::Rows;
use crate::takings::{Takes, Takings};
use crossbeam_queue::Pass;
use lock_core::Job;
use std::sync::Wait;

impl Queue {
    /// Takes the next place for the rows' pass: makes this the transfer there, and answers its number. None: the pass took its
    /// mark, so no place is left, and none ever will be.
    #[inline(always)]
    pub fn take_next<R: Wait>(&self, rt: &R, rows: &mut Rows, job: &mut Job) -> Option<u32>
        requires pass { HasPassOf self.now rows.old }
        requires mark { marks_in rows.old ≡ [] }
        ensures pass { HasPassOf self.now rows.new }
        ensures rows { KeepsRows rows.old rows.new }
        ensures place { IfSome result (λ number. TakesPlace self.now number job.new rows.old rows.new) }
        ensures mark { IfNone result (TakesMark self.now rows.old rows.new) }
    {
        let Some(pass) = &mut rows.pass else {
            unreachable!()
        };
        let next = self.pop(rt, pass);
        if next >= self.script.count() {
            return None;
        }
        self.script.fetch(next, job);
        Some((self.first + next) as u32)
    }

    /// The next number of the queue, a place or a mark. There always is one for a pass that may take a mark.
    #[inline(always)]
    fn pop<R: Wait>(&self, rt: &R, pass: &mut Pass<u32, Takings>) -> u64
        requires pass { IsWorkersPass self.now pass.old }
        requires mark { (view pass.old).own_marks ≡ [] }
        ensures pass { IsWorkersPass self.now pass.new }
        ensures next { TakesNext (view pass.old) result (view pass.new) }
    {
        let Some(next) = self.line.pop_as::<Takes, R>(rt, pass) else {
            unreachable!()
        };
        u64::from(next)
    }
}
