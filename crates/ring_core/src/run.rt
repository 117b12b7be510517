//! One run of the ring machine: the log and what each actor has in hand.

ghost use Rattle.std.specs.Prelude.{◌≡◌, ◌↔◌, IsTrue, Ok, IfOk, OnErr};
ghost use Rattle.ring_core.specs.Machine.{MayReserve, RingStep, start_state};
ghost use Rattle.ring_core.specs.Rows.{MayNeedMemory};
ghost use Rattle.ring_core.specs.declared.event.RingEvent.TheVariants.{Reserve, Fill, Mark, LookExposed, LookMark, Raise, Flushed};

use crate::event::RingEvent;
use crate::hand::{
    Hand, base_in, is_idle, is_marked, looks_at, raises_from, stage_after_look, stage_in_hand,
    take_up, turn_to,
};
use crate::ring_log::RingLog;
use crate::stage::Stage;
use lsn_space::{Lsn, NoMemory};
use std::alloc::Global;
use std::marker::Model;

/// One run of the machine. Contracts see the machine's state.
#[derive(Drop)]
pub struct RingRun {
    log: RingLog,
    hands: Vec<Hand>,
}

impl Model for RingRun {
    ghost use Rattle.ring_core.specs.State.{RingState};

    ghost Value = { RingState };

    ghost use Rattle.ring_core.specs.Laws.{IsSound};
    ghost use Rattle.ring_core.specs.Run.{state_of};

    ghost view = { state_of };

    ghost invariant = { λ run. IsSound (state_of run) };
}

impl RingRun {
    /// An empty log from `start` on, with a ring of `ring` units. The run keeps the allocator.
    pub fn make(alloc: Global, start: Lsn, ring: u32) -> Result<RingRun, NoMemory>
        ensures { result ≡ Ok (start_state start ring) }
    {
        Ok(RingRun {
            log: RingLog::make(alloc, start, ring),
            hands: Vec::new(alloc),
        })
    }

    /// Takes the event where it is enabled, and answers whether it was.
    pub fn apply(&mut self, event: RingEvent) -> Result<bool, NoMemory>
        ensures step { IfOk result (λ taken. RingStep self.old event taken self.new) }
        ensures err { OnErr result (self.new ≡ self.old) }
        // Only a reservation that is enabled may need memory.
        ensures memory { OnErr result (MayNeedMemory self.old event) }
    {
        match event {
            RingEvent::Reserve { by, n } => self.reserve(by, n),
            RingEvent::Fill { by } => Ok(self.fill(by)),
            RingEvent::Mark { by } => Ok(self.mark(by)),
            RingEvent::LookExposed { by } => Ok(self.look_exposed(by)),
            RingEvent::LookMark { by } => Ok(self.look_mark(by)),
            RingEvent::Raise { by } => Ok(self.raise(by)),
            RingEvent::Flushed { to } => Ok(self.flush(to)),
        }
    }

    /// Everything below is marked as released.
    pub fn exposed(&self) -> Lsn
        ensures { result ≡ self.now.exposed }
    {
        self.log.exposed()
    }

    /// Everything below is reserved.
    pub fn tail(&self) -> Lsn
        ensures { result ≡ self.now.tail }
    {
        self.log.tail()
    }

    /// Everything below is durable.
    pub fn durable(&self) -> Lsn
        ensures { result ≡ self.now.durable }
    {
        self.log.durable()
    }

    fn fill(&mut self, by: u32) -> bool
        ensures { RingStep self.old (Fill by) result self.new }
    {
        let Some(base) = base_in(stage_in_hand(&self.hands, by)) else {
            return false;
        };
        self.log.fill(base)
    }

    fn mark(&mut self, by: u32) -> bool
        ensures { RingStep self.old (Mark by) result self.new }
    {
        let Some(base) = base_in(stage_in_hand(&self.hands, by)) else {
            return false;
        };
        if !self.log.mark(base) {
            return false;
        }
        turn_to(&mut self.hands, by, Stage::Marked);
        true
    }

    fn look_exposed(&mut self, by: u32) -> bool
        ensures { RingStep self.old (LookExposed by) result self.new }
    {
        if !is_marked(stage_in_hand(&self.hands, by)) {
            return false;
        }
        let at = self.log.exposed();
        turn_to(&mut self.hands, by, Stage::Holds { at });
        true
    }

    fn look_mark(&mut self, by: u32) -> bool
        ensures { RingStep self.old (LookMark by) result self.new }
    {
        let Some(at) = looks_at(stage_in_hand(&self.hands, by)) else {
            return false;
        };
        let stage = stage_after_look(at, self.log.is_marked(at));
        turn_to(&mut self.hands, by, stage);
        true
    }

    /// The actor takes up what exposed is then, whether it raised it or it had moved.
    fn raise(&mut self, by: u32) -> bool
        ensures { RingStep self.old (Raise by) result self.new }
    {
        let Some(from) = raises_from(stage_in_hand(&self.hands, by)) else {
            return false;
        };
        self.log.raise(from);
        let found = self.log.exposed();
        turn_to(&mut self.hands, by, Stage::Holds { at: found });
        true
    }

    fn reserve(&mut self, by: u32, n: u32) -> Result<bool, NoMemory>
        ensures step { IfOk result (λ taken. RingStep self.old (Reserve by n) taken self.new) }
        ensures err { OnErr result (self.new ≡ self.old) }
        ensures memory { OnErr result (MayReserve self.old by n) }
    {
        if !self.may_reserve(by, n) {
            return Ok(false);
        }
        let base = self.log.tail();
        self.hands.reserve(1).map_err(|_| NoMemory)?;
        self.log.reserve(n)?;
        take_up(&mut self.hands, by, base);
        Ok(true)
    }

    /// Whether the actor may reserve `n` units.
    fn may_reserve(&self, by: u32, n: u32) -> bool
        ensures { IsTrue result ↔ MayReserve self.now by n }
    {
        is_idle(stage_in_hand(&self.hands, by)) && self.log.has_room(n)
    }

    fn flush(&mut self, to: Lsn) -> bool
        ensures { RingStep self.old (Flushed to) result self.new }
    {
        self.log.flush(to)
    }
}
