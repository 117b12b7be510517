//! What the events look up, and the changes that they make.
ghost use Rattle.std.specs.Prelude.{◌≡◌, ◌≢◌, ◌<◌, length, replicate, IfOk};
ghost use Rattle.slot_core.specs.State.{nothing, task_of, membership, group, empty_group, group_at, without};
ghost use Rattle.slot_core.specs.Machine.{turned, moved};
ghost use Rattle.slot_core.specs.Laws.{IsSound};

use crate::group::Group;
use crate::hand::{task_of, turn};
use crate::run::SlotRun;
use lsn_space::NoMemory;
use slot_parts::{GroupPhase, Membership, Task};
use std::alloc::Global;

impl SlotRun {
    /// What the actor has in hand. The state is sound, as always.
    pub(super) fn task(&self, by: u32) -> Task
        ensures task { result ≡ task_of by self.now.hands }
        ensures sound { IsSound self.now }
    {
        task_of(&self.hands, by)
    }

    /// What the actor has in a group, where it is a member. The state is sound, as always.
    pub(super) fn membership(&self, by: u32) -> Option<Membership>
        ensures member { result ≡ membership (task_of by self.now.hands) }
        ensures sound { IsSound self.now }
    {
        self.task(by).membership()
    }

    /// How far the group at the slot has come.
    pub(super) fn phase(&self, slot: u32) -> GroupPhase
        ensures { result ≡ (group_at slot self.now.groups).phase }
    {
        let at = slot as usize;
        if at < self.groups.len() {
            let group = &self.groups[at];
            group.phase()
        } else {
            GroupPhase::Vacant
        }
    }

    /// The actor turns to this.
    pub(super) fn turn(&mut self, by: u32, task: Task)
        requires busy { task_of by self.old.hands ≢ nothing }
        requires sound { IsSound (turned self.old by task) }
        ensures { self.new ≡ turned self.old by task }
    {
        turn(&mut self.hands, by, task);
    }

    /// The actor turns to this, and the group at the slot to this phase.
    pub(super) fn advance(&mut self, by: u32, slot: u32, task: Task, phase: GroupPhase)
        requires busy { task_of by self.old.hands ≢ nothing }
        requires there { slot < length self.old.groups }
        requires sound { IsSound (moved self.old by slot task (group (group_at slot self.old.groups).members phase)) }
        ensures { self.new ≡ moved self.old by slot task (group (group_at slot self.old.groups).members phase) }
    {
        turn(&mut self.hands, by, task);
        let group = &mut self.groups[slot as usize];
        group.set_phase(phase);
    }

    /// The actor leaves its group, turns to this, and the group to this phase.
    pub(super) fn leave(&mut self, by: u32, slot: u32, task: Task, phase: GroupPhase)
        requires busy { task_of by self.old.hands ≢ nothing }
        requires there { slot < length self.old.groups }
        requires sound { IsSound (moved self.old by slot task (group (without by (group_at slot self.old.groups).members) phase)) }
        ensures { self.new ≡ moved self.old by slot task (group (without by (group_at slot self.old.groups).members) phase) }
    {
        turn(&mut self.hands, by, task);
        let group = &mut self.groups[slot as usize];
        group.release(by, phase);
    }
}

/// So many slots with nobody there.
pub(super) fn empty_groups(alloc: Global, slots: u32) -> Result<Vec<Group>, NoMemory>
    ensures { IfOk result (λ groups. groups.items ≡ replicate slots empty_group) }
{
    let mut groups = Vec::new(alloc);
    groups.reserve(slots as usize).map_err(|_| NoMemory)?;
    for made in 0..slots {
        groups.push_reserved(Group::new(alloc));
    }
    Ok(groups)
}
