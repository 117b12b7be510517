//! The group at a slot: its members, and how far it has come.

ghost use Rattle.std.specs.Prelude.{◌≡◌, ◌+◌, ◌≤◌, [], OnOk, OnErr};
ghost use Rattle.std.specs.List.{position};
ghost use Rattle.lsn_space.specs.declared.lsn.TheConstants.{LAST};
ghost use Rattle.slot_core.specs.State.{member, group, empty_group, without};
ghost use Rattle.slot_core.specs.Members.{is_of};
ghost use Rattle.slot_core.specs.Machine.{gathered, group_joined};

use lsn_space::NoMemory;
use slot_parts::GroupPhase;
use std::alloc::Global;
use std::marker::Model;

/// One that has joined a group and not released.
#[derive(Drop)]
pub struct Member {
    actor: u32,
    offset: u32,
    size: u32,
}

impl Model for Member {
    ghost use Rattle.slot_core.specs.State.{Member as MemberRow};

    ghost Value = { MemberRow };

    ghost view = { λ m. record { actor = m.actor; offset = m.offset; size = m.size } };
}

/// The members that have not released, in order, and how far their group has come.
#[derive(Drop)]
pub struct Group {
    members: Vec<Member>,
    phase: GroupPhase,
}

impl Model for Group {
    ghost use Rattle.slot_core.specs.State.{Group as GroupRow};

    ghost Value = { GroupRow };

    ghost view = { λ g. record { members = g.members.items; phase = g.phase } };
}

impl Member {
    fn new(actor: u32, offset: u32, size: u32) -> Member
        ensures { result ≡ member actor offset size }
    {
        Member {
            actor,
            offset,
            size,
        }
    }
}

impl Group {
    /// Nobody is there. The group keeps the allocator.
    pub fn new(alloc: Global) -> Group
        ensures { result ≡ empty_group }
    {
        Group {
            members: Vec::new(alloc),
            phase: GroupPhase::Vacant,
        }
    }

    pub fn phase(&self) -> GroupPhase
        ensures { result ≡ self.now.phase }
    {
        self.phase
    }

    /// The group at another phase.
    pub fn set_phase(&mut self, phase: GroupPhase)
        ensures { self.new ≡ group self.old.members phase }
    {
        self.phase = phase;
    }

    /// The actor joins with `n` units.
    pub fn join(&mut self, actor: u32, n: u32) -> Result<(), NoMemory>
        requires { gathered self.old.phase + n ≤ LAST }
        ensures ok { OnOk result (self.new ≡ group_joined actor n self.old) }
        ensures err { OnErr result (self.new ≡ self.old) }
    {
        self.members.reserve(1).map_err(|_| NoMemory)?;
        self.members
            .push_reserved(Member::new(actor, self.phase.gathered(), n));
        self.phase = self.phase.joined(actor, n);
        Ok(())
    }

    /// The actor's entry goes, and the group is at this phase.
    pub fn release(&mut self, actor: u32, phase: GroupPhase)
        ensures { self.new ≡ group (without actor self.old.members) phase }
    {
        if let Some(at) = index_of(&self.members, actor) {
            self.members.remove(at);
        }
        self.phase = phase;
    }

    /// Nobody is there any more.
    pub fn open(&mut self)
        requires { self.old.members ≡ [] }
        ensures { self.new ≡ empty_group }
    {
        self.phase = GroupPhase::Vacant;
    }
}

/// The index of the actor's first entry.
fn index_of(members: &[Member], actor: u32) -> Option<usize>
    ensures { result ≡ position (is_of actor) members.now }
{
    members.iter().position(|member| member.actor == actor)
}
