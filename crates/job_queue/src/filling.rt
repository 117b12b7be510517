//! The queue is filled by its first pass, before there is another.
ghost use Rattle.std.specs.Prelude.{◌≡◌, ◌≤◌, true, IfOk};
ghost use Rattle.crossbeam_queue.specs.Passes.{view, IsPassOf};
ghost use Rattle.job_queue.specs.Takings.{fresh};

use crate::takings::{OneByOne, PutsMark, PutsPlace, Takings};
use crossbeam_queue::{Pass, RuledArrayQueue};
use lsn_space::NoMemory;
use std::alloc::Global;
use std::sync::Wait;

/// A queue of places and marks. They have 32 bits, as transaction numbers do, so that a place takes little memory.
pub type Line = RuledArrayQueue<u32, Takings, OneByOne>;

/// The places below `count`, and behind them so many marks, in a queue with room for them all.
pub(crate) fn filled<R: Wait>(
    rt: &R,
    alloc: Global,
    count: u32,
    workers: u32,
) -> Result<(Line, Pass<u32, Takings>), NoMemory>
    requires shared { 1 ≤ workers }
    ensures pass { IfOk result (λ made. IsPassOf made.0 made.1) }
    ensures first { IfOk result (λ made. made.1.id ≡ 0) }
    ensures put { IfOk result (λ made. view made.1 ≡ fresh true count workers 0 workers) }
{
    // More numbers than 32 bits tell apart count as want of memory.
    let Some(all) = count.checked_add(workers) else {
        return Err(NoMemory);
    };
    let Ok((line, mut pass)) = Line::ruled(alloc, all as usize) else {
        return Err(NoMemory);
    };
    'places: for place in 0..count {
        if line.push_as::<PutsPlace, R>(rt, &mut pass, place).is_err() {
            unreachable!();
        }
    }
    'marks: for mark in 0..workers {
        if line
            .push_as::<PutsMark, R>(rt, &mut pass, count + mark)
            .is_err()
        {
            unreachable!();
        }
    }
    Ok((line, pass))
}
