//! Joining a group, and what its leader does for it.
ghost use Rattle.std.specs.Prelude.{◌≡◌, ◌+◌, ◌≤◌, ◌↔◌, IsTrue, Some, IfOk, OnOk, OnErr};
ghost use Rattle.std.specs.Bool.{OnTrue};
ghost use Rattle.lsn_space.specs.declared.lsn.TheConstants.{LAST};
ghost use Rattle.ring_core.specs.RingLog.{HasRoom};
ghost use Rattle.slot_core.specs.State.{Joined, Places, task_of, membership, group_at};
ghost use Rattle.slot_core.specs.Machine.{Join, Close, Place, PutBase, Tell, MayJoin, gathered, closed_total, after_lead, after_place, GroupStep};
ghost use Rattle.slot_core.specs.Laws.{IsSound};
ghost use Rattle.slot_core.specs.Run.{MayPlaceNow};

use crate::hand::{take_up, turn};
use crate::run::SlotRun;
use lsn_space::NoMemory;
use slot_parts::{GroupPhase, LONGEST_PIECE, MemberStage, Membership, Outcome};

impl SlotRun {
    pub(super) fn join(&mut self, by: u32, slot: u32, n: u32) -> Result<bool, NoMemory>
        ensures step { IfOk result (λ taken. GroupStep self.old (Join by slot n) taken self.new) }
        ensures err { OnErr result (self.new ≡ self.old) }
        ensures memory { OnErr result (MayJoin self.old by slot n) }
    {
        if !self.may_join(by, slot, n) {
            return Ok(false);
        }
        let task = self.phase(slot).task_joined(slot, n);
        self.hands.reserve(1).map_err(|_| NoMemory)?;
        let group = &mut self.groups[slot as usize];
        group.join(by, n)?;
        take_up(&mut self.hands, by, task);
        Ok(true)
    }

    /// Whether the actor may join. It asks for no memory.
    fn may_join(&self, by: u32, slot: u32, n: u32) -> bool
        ensures may { IsTrue result ↔ MayJoin self.now by slot n }
        ensures fits { OnTrue result (gathered (group_at slot self.now.groups).phase + n ≤ LAST) }
    {
        self.task(by).is_nothing()
            && (slot as usize) < self.groups.len()
            && 1 <= n
            && n <= LONGEST_PIECE
            && self.phase(slot).has_place(self.log.ring() / 4, n)
    }

    pub(super) fn close(&mut self, by: u32) -> bool
        ensures { GroupStep self.old (Close by) result self.new }
    {
        let Some(member) = self.membership(by) else {
            return false;
        };
        let MemberStage::Closes = member.stage else {
            return false;
        };
        self.lead(by, member);
        true
    }

    pub(super) fn put_base(&mut self, by: u32) -> bool
        ensures { GroupStep self.old (PutBase by) result self.new }
    {
        let Some(member) = self.membership(by) else {
            return false;
        };
        let MemberStage::Stores = member.stage else {
            return false;
        };
        self.lead(by, member);
        true
    }

    pub(super) fn tell(&mut self, by: u32) -> bool
        ensures { GroupStep self.old (Tell by) result self.new }
    {
        let Some(member) = self.membership(by) else {
            return false;
        };
        let MemberStage::Tells = member.stage else {
            return false;
        };
        self.lead(by, member);
        true
    }

    /// The leader closes its group, stores its outcome or tells it.
    fn lead(&mut self, by: u32, member: Membership)
        requires joined { membership (task_of by self.old.hands) ≡ Some member }
        requires sound { IsSound (after_lead self.old by (Some member)) }
        ensures { self.new ≡ after_lead self.old by (Some member) }
    {
        let phase = self.phase(member.slot).next();
        self.advance(by, member.slot, member.at_stage(member.stage.next()), phase);
    }

    pub(super) fn place(&mut self, by: u32) -> Result<bool, NoMemory>
        ensures step { IfOk result (λ taken. GroupStep self.old (Place by self.old.log.tail self.old.log.durable) taken self.new) }
        ensures err { OnErr result (self.new ≡ self.old) }
        ensures memory { OnErr result (MayPlaceNow self.old by) }
    {
        let Some(member) = self.membership(by) else {
            return Ok(false);
        };
        let MemberStage::Places = member.stage else {
            return Ok(false);
        };
        let total = self.phase(member.slot).closed_total();
        if self.log.has_room(total) {
            self.grant(by, member, total)?;
        } else {
            self.refuse(by, member, total);
        }
        Ok(true)
    }

    /// The group's range is reserved at the tail.
    fn grant(&mut self, by: u32, member: Membership, total: u32) -> Result<(), NoMemory>
        requires joined { task_of by self.old.hands ≡ Joined member }
        requires places { member.stage ≡ Places }
        requires total { total ≡ closed_total (group_at member.slot self.old.groups).phase }
        requires room { HasRoom self.old.log total }
        ensures ok { OnOk result (self.new ≡ after_place self.old by self.old.log.tail self.old.log.durable (Some member)) }
        ensures err { OnErr result (self.new ≡ self.old) }
    {
        let base = self.log.tail();
        self.log.reserve(total)?;
        turn(&mut self.hands, by, member.at_stage(MemberStage::Stores));
        let group = &mut self.groups[member.slot as usize];
        group.set_phase(GroupPhase::Placed {
            leader: by,
            total,
            outcome: Outcome::Granted { base },
        });
        Ok(())
    }

    /// The group is refused, by the present tail and durable.
    fn refuse(&mut self, by: u32, member: Membership, total: u32)
        requires joined { task_of by self.old.hands ≡ Joined member }
        requires places { member.stage ≡ Places }
        requires total { total ≡ closed_total (group_at member.slot self.old.groups).phase }
        requires full { ¬ HasRoom self.old.log total }
        ensures { self.new ≡ after_place self.old by self.old.log.tail self.old.log.durable (Some member) }
    {
        let outcome = Outcome::Refused {
            tail: self.log.tail(),
            durable: self.log.durable(),
        };
        let phase = GroupPhase::Placed {
            leader: by,
            total,
            outcome,
        };
        self.advance(by, member.slot, member.at_stage(MemberStage::Stores), phase);
    }
}
