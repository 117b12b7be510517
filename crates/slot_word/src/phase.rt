//! The phases of a group, and the number of each in a slot's word.

ghost use Rattle.std.specs.Prelude.{◌≡◌};
ghost use Rattle.slot_word.specs.SlotWord.{number_of};

/// How far the group at a slot has come. A group is a few workers that want room in the log at the same time: one of them, its
/// leader, reserves for all of them in one step.
#[derive(Clone, Copy, Debug, PartialEq, Eq)]
pub enum Phase {
    /// Workers may join: each adds the units that it wants to the total. Who joins at total 0 is the leader.
    Gathering,

    /// The leader has closed the group, so nobody joins it any more, and reserves for it. It alone knows the total; the other
    /// members wait for one of the two phases below.
    Pending,

    /// The group's range of the log is reserved. Each member fills its own piece and releases it; after the last release
    /// the slot can gather again.
    Published,

    /// The log had no room for the group, as its leader saw it, so there is nothing to fill: each member releases once it has heard this.
    Refused,
}

impl Phase {
    /// Its number in the word.
    pub(crate) fn number(self) -> u64
        ensures { result ≡ number_of self }
    {
        match self {
            Phase::Gathering => 0,
            Phase::Pending => 1,
            Phase::Published => 2,
            Phase::Refused => 3,
        }
    }
}
