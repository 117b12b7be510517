//! How far a group of the machine has come, and what became of it.
ghost use Rattle.std.specs.Prelude.{◌≡◌, ◌+◌, ◌≤◌, ◌↔◌, IsTrue};
ghost use Rattle.std.specs.Bool.{OnTrue};
ghost use Rattle.lsn_space.specs.declared.lsn.TheConstants.{LAST};
ghost use Rattle.slot_parts.specs.Phases.{HasPlace, HasRemaining, gathered, stage_joined, task_joined, phase_joined, closed_total, next_phase, told_outcome, granted_base, phase_released, task_released};

use crate::task::{MemberStage, Membership, Task};
use lsn_space::Lsn;

/// What became of a group when its leader placed it.
#[derive(Clone, Copy)]
pub enum Outcome {
    /// The group's range is reserved, from this base on.
    Granted { base: Lsn },
    /// There was no room for the group by this tail and this durable.
    Refused { tail: Lsn, durable: Lsn },
}

/// How far the group at a slot has come.
#[derive(Clone, Copy)]
pub enum GroupPhase {
    /// Nobody is there.
    Vacant,
    /// Actors may join. The first of them leads the group.
    Gathering {
        leader: u32,
        total: u32,
    },
    /// The leader has closed the group, so nobody joins it any more.
    Closed {
        leader: u32,
        total: u32,
    },
    /// The leader has reserved the group's range, or was refused it.
    Placed {
        leader: u32,
        total: u32,
        outcome: Outcome,
    },
    /// The leader has stored the outcome where the members can read it.
    Ready {
        leader: u32,
        total: u32,
        outcome: Outcome,
    },
    /// The members are told. So many units of the group are not released yet.
    Told {
        total: u32,
        outcome: Outcome,
        remaining: u32,
    },
    /// All members have released. The last of them is to open the slot again.
    Emptied {
        last: u32,
    },
}

impl GroupPhase {
    /// Whether `n` more units have a place in the group. The sum may pass 32 bits.
    pub fn has_place(&self, quarter: u32, n: u32) -> bool
        ensures place { IsTrue result ↔ HasPlace quarter n self.now }
        ensures fits { OnTrue result (gathered self.now + n ≤ LAST) }
    {
        match *self {
            GroupPhase::Vacant => n <= quarter,
            GroupPhase::Gathering { total, .. } => {
                u64::from(total) + u64::from(n) <= u64::from(quarter)
            }
            GroupPhase::Closed { .. } => false,
            GroupPhase::Placed { .. } => false,
            GroupPhase::Ready { .. } => false,
            GroupPhase::Told { .. } => false,
            GroupPhase::Emptied { .. } => false,
        }
    }

    /// The units of those who have joined so far.
    pub fn gathered(&self) -> u32
        ensures { result ≡ gathered self.now }
    {
        match *self {
            GroupPhase::Gathering { total, .. } => total,
            _ => 0,
        }
    }

    /// What one does next who joins.
    pub fn stage_joined(&self) -> MemberStage
        ensures { result ≡ stage_joined self.now }
    {
        match *self {
            GroupPhase::Vacant => MemberStage::Closes,
            _ => MemberStage::Waits,
        }
    }

    /// What an actor has in hand that has joined at this slot with `n` units: its offset is the total before.
    pub fn task_joined(&self, slot: u32, n: u32) -> Task
        ensures { result ≡ task_joined slot n self.now }
    {
        Task::Joined(Membership {
            slot,
            offset: self.gathered(),
            size: n,
            stage: self.stage_joined(),
        })
    }

    /// The phase after `actor` has joined with `n` units.
    pub fn joined(self, actor: u32, n: u32) -> GroupPhase
        requires { gathered self + n ≤ LAST }
        ensures { result ≡ phase_joined actor n self }
    {
        match self {
            GroupPhase::Vacant => GroupPhase::Gathering {
                leader: actor,
                total: n,
            },
            GroupPhase::Gathering { leader, total } => GroupPhase::Gathering {
                leader,
                total: total + n,
            },
            other => other,
        }
    }

    /// The total of a group that is closed.
    pub fn closed_total(&self) -> u32
        ensures { result ≡ closed_total self.now }
    {
        match *self {
            GroupPhase::Closed { total, .. } => total,
            _ => 0,
        }
    }

    /// The phase after the leader has closed the group, stored its outcome or told it.
    pub fn next(self) -> GroupPhase
        ensures { result ≡ next_phase self }
    {
        match self {
            GroupPhase::Gathering { leader, total } => GroupPhase::Closed { leader, total },
            GroupPhase::Placed {
                leader,
                total,
                outcome,
            } => GroupPhase::Ready {
                leader,
                total,
                outcome,
            },
            GroupPhase::Ready { total, outcome, .. } => GroupPhase::Told {
                total,
                outcome,
                remaining: total,
            },
            other => other,
        }
    }

    /// What became of a group that is told.
    pub fn told_outcome(&self) -> Option<Outcome>
        ensures { result ≡ told_outcome self.now }
    {
        match *self {
            GroupPhase::Told { outcome, .. } => Some(outcome),
            _ => None,
        }
    }

    /// Where the group's range begins, where the group is told that one was granted.
    pub fn granted_base(&self) -> Option<Lsn>
        ensures { result ≡ granted_base (told_outcome self.now) }
    {
        match self.told_outcome()? {
            Outcome::Granted { base } => Some(base),
            Outcome::Refused { .. } => None,
        }
    }

    /// The phase after `actor`, a member of this size, has released.
    pub fn released(self, actor: u32, size: u32) -> GroupPhase
        requires { HasRemaining size self }
        ensures { result ≡ phase_released actor size self }
    {
        match self {
            GroupPhase::Told {
                total,
                outcome,
                remaining,
            } => {
                if remaining == size {
                    GroupPhase::Emptied { last: actor }
                } else {
                    GroupPhase::Told {
                        total,
                        outcome,
                        remaining: remaining - size,
                    }
                }
            }
            other => other,
        }
    }

    /// What a member of this size has in hand after its release.
    pub fn task_released(&self, slot: u32, size: u32) -> Task
        ensures { result ≡ task_released slot size self.now }
    {
        match *self {
            GroupPhase::Told {
                outcome,
                remaining,
                ..
            } => {
                if remaining != size {
                    Task::nothing()
                } else {
                    Task::emptying(slot, outcome)
                }
            }
            _ => Task::nothing(),
        }
    }
}
