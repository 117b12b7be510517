//! The events of the ring machine.
ghost use Rattle.std.specs.Prelude.{◌≡◌, ◌↔◌, IsTrue, IfOk, OnErr};
ghost use Rattle.slot_core.specs.Machine.{Ring, IsRingEnabled, GroupStep};
ghost use Rattle.slot_core.specs.Run.{MayNeedMemoryInRing};
ghost use Rattle.ring_core.specs.declared.event.RingEvent.TheVariants.{Reserve, Mark, LookExposed, LookMark, Raise, Flushed};

use crate::hand::{take_up, turn};
use crate::run::SlotRun;
use lsn_space::{Lsn, NoMemory};
use ring_core::{RingEvent, Stage, base_in, is_marked, looks_at, raises_from, stage_after_look};
use slot_parts::Task;

impl SlotRun {
    pub(super) fn apply_ring(&mut self, event: RingEvent) -> Result<bool, NoMemory>
        ensures step { IfOk result (λ taken. GroupStep self.old (Ring event) taken self.new) }
        ensures err { OnErr result (self.new ≡ self.old) }
        ensures memory { OnErr result (MayNeedMemoryInRing self.old event) }
    {
        match event {
            RingEvent::Reserve { by, n } => self.reserve(by, n),
            RingEvent::Fill { by } => Ok(self.fill(by)),
            RingEvent::Mark { by } => Ok(self.mark(by)),
            RingEvent::LookExposed { by } => Ok(self.look_exposed(by)),
            RingEvent::LookMark { by } => Ok(self.look_mark(by)),
            RingEvent::Raise { by } => Ok(self.raise(by)),
            RingEvent::Flushed { to } => Ok(self.log.flush(to)),
        }
    }

    fn reserve(&mut self, by: u32, n: u32) -> Result<bool, NoMemory>
        ensures step { IfOk result (λ taken. GroupStep self.old (Ring (Reserve by n)) taken self.new) }
        ensures err { OnErr result (self.new ≡ self.old) }
        ensures memory { OnErr result (IsRingEnabled self.old (Reserve by n)) }
    {
        if !self.may_reserve(by, n) {
            return Ok(false);
        }
        let base = self.log.tail();
        self.hands.reserve(1).map_err(|_| NoMemory)?;
        self.log.reserve(n)?;
        let task = Task::InRing {
            reopens: None,
            stage: Stage::Works { base },
        };
        take_up(&mut self.hands, by, task);
        Ok(true)
    }

    /// Whether the actor may reserve. It asks for no memory.
    fn may_reserve(&self, by: u32, n: u32) -> bool
        ensures { IsTrue result ↔ IsRingEnabled self.now (Reserve by n) }
    {
        self.task(by).is_nothing() && self.log.has_room(n)
    }

    fn mark(&mut self, by: u32) -> bool
        ensures { GroupStep self.old (Ring (Mark by)) result self.new }
    {
        let task = self.task(by);
        let Some(base) = base_in(task.ring_stage()) else {
            return false;
        };
        if !self.log.mark(base) {
            return false;
        }
        turn(&mut self.hands, by, task.in_ring(Stage::Marked));
        true
    }

    fn look_exposed(&mut self, by: u32) -> bool
        ensures { GroupStep self.old (Ring (LookExposed by)) result self.new }
    {
        let task = self.task(by);
        if !is_marked(task.ring_stage()) {
            return false;
        }
        let at = self.log.exposed();
        self.turn(by, task.in_ring(Stage::Holds { at }));
        true
    }

    fn look_mark(&mut self, by: u32) -> bool
        ensures { GroupStep self.old (Ring (LookMark by)) result self.new }
    {
        let task = self.task(by);
        let Some(at) = looks_at(task.ring_stage()) else {
            return false;
        };
        let stage = stage_after_look(at, self.log.is_marked(at));
        self.turn(by, task.in_ring(stage));
        true
    }

    fn raise(&mut self, by: u32) -> bool
        ensures { GroupStep self.old (Ring (Raise by)) result self.new }
    {
        let task = self.task(by);
        let Some(from) = raises_from(task.ring_stage()) else {
            return false;
        };
        self.log.raise(from);
        let at = self.log.exposed();
        turn(&mut self.hands, by, task.in_ring(Stage::Holds { at }));
        true
    }
}
