//! One run of the machine: the log, what each actor has in hand, and the groups at the slots.

ghost use Rattle.std.specs.Prelude.{◌≡◌, IfOk, OnErr};
ghost use Rattle.slot_core.specs.Machine.{GroupStep, start_state};
ghost use Rattle.slot_core.specs.Run.{event_at, MayNeedMemory};

mod changes;
mod in_ring;
mod leading;
mod releasing;

use crate::event::SlotEvent;
use crate::group::Group;
use crate::hand::Hand;
use changes::empty_groups;
use lsn_space::{Lsn, NoMemory};
use ring_core::RingLog;
use std::alloc::Global;
use std::marker::Model;

/// One run of the machine. Contracts see the machine's state.
#[derive(Drop)]
pub struct SlotRun {
    log: RingLog,
    hands: Vec<Hand>,
    groups: Vec<Group>,
}

impl Model for SlotRun {
    ghost use Rattle.slot_core.specs.State.{SlotState};

    ghost Value = { SlotState };

    ghost use Rattle.slot_core.specs.Laws.{IsSound};
    ghost use Rattle.slot_core.specs.Run.{state_of};

    ghost view = { state_of };

    ghost invariant = { λ run. IsSound (state_of run) };
}

impl SlotRun {
    /// An empty log from `start` on, with a ring of `ring` units, and so many slots with nobody there. The run keeps the allocator.
    pub fn make(alloc: Global, start: Lsn, ring: u32, slots: u32) -> Result<SlotRun, NoMemory>
        ensures { IfOk result (λ run. run ≡ start_state start ring slots) }
    {
        Ok(SlotRun {
            log: RingLog::make(alloc, start, ring),
            hands: Vec::new(alloc),
            groups: empty_groups(alloc, slots)?,
        })
    }

    /// Takes the event where it is enabled, and answers whether it was.
    pub fn apply(&mut self, event: SlotEvent) -> Result<bool, NoMemory>
        ensures step { IfOk result (λ taken. GroupStep self.old (event_at self.old event) taken self.new) }
        ensures err { OnErr result (self.new ≡ self.old) }
        // Only a join, a place with room or a reservation that is enabled may need memory.
        ensures memory { OnErr result (MayNeedMemory self.old event) }
    {
        match event {
            SlotEvent::Join { by, slot, n } => self.join(by, slot, n),
            SlotEvent::Close { by } => Ok(self.close(by)),
            SlotEvent::Place { by } => self.place(by),
            SlotEvent::PutBase { by } => Ok(self.put_base(by)),
            SlotEvent::Tell { by } => Ok(self.tell(by)),
            SlotEvent::Hear { by } => Ok(self.hear(by)),
            SlotEvent::Release { by } => Ok(self.release(by)),
            SlotEvent::Reopen { by } => Ok(self.reopen(by)),
            SlotEvent::Ring(event) => self.apply_ring(event),
        }
    }

    /// The log, which tells exposed, tail and durable.
    pub fn ring(&self) -> &RingLog
        ensures { result.now ≡ self.now.log }
    {
        &self.log
    }
}
