//! What a member does of a group that is told, and the reopening of its slot.
ghost use Rattle.std.specs.Prelude.{◌≡◌, None};
ghost use Rattle.slot_core.specs.State.{Joined, task_of, membership};
ghost use Rattle.slot_core.specs.Machine.{Hear, Release, Reopen, Ring, HasUnfilledPiece, after_fill, GroupStep};
ghost use Rattle.ring_core.specs.declared.event.RingEvent.TheVariants.{Fill};

use crate::hand::turn;
use crate::run::SlotRun;
use ring_core::{base_in, is_idle};
use slot_parts::{MemberStage, Membership, Task};

impl SlotRun {
    pub(super) fn hear(&mut self, by: u32) -> bool
        ensures { GroupStep self.old (Hear by) result self.new }
    {
        let Some(member) = self.membership(by) else {
            return false;
        };
        let MemberStage::Waits = member.stage else {
            return false;
        };
        let Some(outcome) = self.phase(member.slot).told_outcome() else {
            return false;
        };
        self.turn(by, member.at_stage(MemberStage::heard(outcome)));
        true
    }

    pub(super) fn fill(&mut self, by: u32) -> bool
        ensures { GroupStep self.old (Ring (Fill by)) result self.new }
    {
        match self.membership(by) {
            Some(member) => {
                if !member.stage.has_unfilled(member.size) {
                    return false;
                }
                self.fill_piece(by, member);
                true
            }
            None => self.fill_range(by),
        }
    }

    /// The next unit of the member's piece is filled.
    fn fill_piece(&mut self, by: u32, member: Membership)
        requires joined { task_of by self.old.hands ≡ Joined member }
        requires unfilled { HasUnfilledPiece member.size member.stage }
        ensures { self.new ≡ after_fill self.old by (Joined member) }
    {
        if let Some(base) = self.phase(member.slot).granted_base() {
            self.log.fill(base);
            turn(
                &mut self.hands,
                by,
                member.at_stage(member.stage.filled(member.size)),
            );
        }
    }

    /// The next unit is filled of the reservation that an actor works on which is no member.
    fn fill_range(&mut self, by: u32) -> bool
        requires { membership (task_of by self.old.hands) ≡ None }
        ensures { GroupStep self.old (Ring (Fill by)) result self.new }
    {
        let Some(base) = base_in(self.task(by).ring_stage()) else {
            return false;
        };
        self.log.fill(base)
    }

    pub(super) fn release(&mut self, by: u32) -> bool
        ensures { GroupStep self.old (Release by) result self.new }
    {
        let Some(member) = self.membership(by) else {
            return false;
        };
        if !member.stage.has_done(member.size) {
            return false;
        }
        let phase = self.phase(member.slot);
        let task = phase.task_released(member.slot, member.size);
        self.leave(by, member.slot, task, phase.released(by, member.size));
        true
    }

    pub(super) fn reopen(&mut self, by: u32) -> bool
        ensures { GroupStep self.old (Reopen by) result self.new }
    {
        let task = self.task(by);
        if !is_idle(task.ring_stage()) {
            return false;
        }
        let Some(slot) = task.reopening() else {
            return false;
        };
        turn(&mut self.hands, by, Task::nothing());
        let group = &mut self.groups[slot as usize];
        group.open();
        true
    }
}
