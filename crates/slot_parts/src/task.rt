//! What an actor of the group machine does next.
ghost use Rattle.std.specs.Prelude.{◌≡◌, ◌↔◌, IsTrue, Some};
ghost use Rattle.slot_parts.specs.declared.task.TheConstants.{LONGEST_PIECE};
ghost use Rattle.slot_parts.specs.Tasks.{nothing, membership, ring_stage, reopening, HasUnfilledPiece, HasDone, next_stage, stage_filled, stage_heard, at_stage, in_ring, task_emptying};

use crate::phase::Outcome;
use ring_core::{Stage, is_idle};

/// The most units that a member brings into its group: those of the longest record.
pub const LONGEST_PIECE: u32 = 26;

/// A law: the bound on the units of a piece is 26.
pub fn piece_numbers()
    ensures { LONGEST_PIECE ≡ 26 }
{}

/// What a member of a group does next.
#[derive(Clone, Copy)]
pub enum MemberStage {
    /// It joined first, so it leads the group, and closes it.
    Closes,
    /// It waits until the group is told, and hears what became of it.
    Waits,
    /// It has closed the group, and places it.
    Places,
    /// It has placed the group, and stores the outcome.
    Stores,
    /// It has stored the outcome, and tells the group.
    Tells,
    /// It has heard where the group's range is, fills its piece, of which so many units are filled, and then releases it.
    Fills { filled: u32 },
    /// It has heard that the group was refused, and releases.
    Leaves,
}

/// An actor's part in a group: the slot, the units from `offset` on of the group's total, and what it does next.
#[derive(Clone, Copy)]
pub struct Membership {
    pub slot: u32,
    pub offset: u32,
    pub size: u32,
    pub stage: MemberStage,
}

/// What an actor has in hand.
#[derive(Clone, Copy)]
pub enum Task {
    /// It is a member of a group.
    Joined(Membership),
    /// It is at this stage of the ring machine. Where a slot is named it was the last of a group to release, works on the group's
    /// range, if it has one, and opens the slot again when it has nothing more to do in the ring.
    InRing { reopens: Option<u32>, stage: Stage },
}

impl MemberStage {
    /// What a leader does after it has closed its group, stored the outcome or told the group.
    pub fn next(self) -> MemberStage
        ensures { result ≡ next_stage self }
    {
        match self {
            MemberStage::Closes => MemberStage::Places,
            MemberStage::Stores => MemberStage::Tells,
            MemberStage::Tells => MemberStage::Waits,
            other => other,
        }
    }

    /// What a member does that has heard this.
    pub fn heard(outcome: Outcome) -> MemberStage
        ensures { result ≡ stage_heard (Some outcome) }
    {
        match outcome {
            Outcome::Granted { .. } => MemberStage::Fills { filled: 0 },
            Outcome::Refused { .. } => MemberStage::Leaves,
        }
    }

    /// Whether a unit of a piece of this size is not yet filled.
    pub fn has_unfilled(&self, size: u32) -> bool
        ensures { IsTrue result ↔ HasUnfilledPiece size self.now }
    {
        match *self {
            MemberStage::Fills { filled } => filled < size,
            _ => false,
        }
    }

    /// The stage with one more unit filled.
    pub fn filled(self, size: u32) -> MemberStage
        requires { HasUnfilledPiece size self }
        ensures { result ≡ stage_filled self }
    {
        match self {
            MemberStage::Fills { filled } => MemberStage::Fills { filled: filled + 1 },
            other => other,
        }
    }

    /// Whether a member with a piece of this size has filled it, or was refused.
    pub fn has_done(&self, size: u32) -> bool
        ensures { IsTrue result ↔ HasDone size self.now }
    {
        match *self {
            MemberStage::Fills { filled } => filled == size,
            MemberStage::Leaves => true,
            _ => false,
        }
    }
}

impl Membership {
    /// The member at another stage.
    pub fn at_stage(self, stage: MemberStage) -> Task
        ensures { result ≡ at_stage stage self }
    {
        Task::Joined(Membership { stage, ..self })
    }
}

impl Task {
    /// Nothing in hand.
    pub fn nothing() -> Task
        ensures { result ≡ nothing }
    {
        Task::InRing {
            reopens: None,
            stage: Stage::Idle,
        }
    }

    /// Whether it is nothing.
    pub fn is_nothing(&self) -> bool
        ensures { IsTrue result ↔ (self.now ≡ nothing) }
    {
        match *self {
            Task::Joined(_) => false,
            Task::InRing { reopens, stage } => reopens.is_none() && is_idle(stage),
        }
    }

    /// The actor's part in a group, if it has one.
    pub fn membership(&self) -> Option<Membership>
        ensures { result ≡ membership self.now }
    {
        match *self {
            Task::Joined(membership) => Some(membership),
            Task::InRing { .. } => None,
        }
    }

    /// The actor's stage of the ring machine.
    pub fn ring_stage(&self) -> Stage
        ensures { result ≡ ring_stage self.now }
    {
        match *self {
            Task::Joined(_) => Stage::Idle,
            Task::InRing { stage, .. } => stage,
        }
    }

    /// The slot that the actor opens again, if there is one.
    pub fn reopening(&self) -> Option<u32>
        ensures { result ≡ reopening self.now }
    {
        match *self {
            Task::Joined(_) => None,
            Task::InRing { reopens, .. } => reopens,
        }
    }

    /// The actor at another stage of the ring machine.
    pub fn in_ring(self, stage: Stage) -> Task
        ensures { result ≡ in_ring stage self }
    {
        match self {
            Task::Joined(membership) => Task::Joined(membership),
            Task::InRing { reopens, .. } => Task::InRing { reopens, stage },
        }
    }

    /// What the last to release has in hand.
    pub fn emptying(slot: u32, outcome: Outcome) -> Task
        ensures { result ≡ task_emptying slot outcome }
    {
        let stage = match outcome {
            Outcome::Granted { base } => Stage::Works { base },
            Outcome::Refused { .. } => Stage::Idle,
        };
        Task::InRing {
            reopens: Some(slot),
            stage,
        }
    }
}
