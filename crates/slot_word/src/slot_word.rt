//! A slot as the table holds it: its fields, and what a join or a release makes of them.

ghost use Rattle.std.specs.Prelude.{◌≡◌, ◌≤◌, ◌<◌, ◌+◌, ◌-◌, ◌^◌};
ghost use Rattle.slot_word.specs.declared.phase.Phase.TheVariants.{Gathering, Pending, Published, Refused};

use crate::phase::Phase;

/// A slot as the table holds it in one word: the phase of its group, the total of the units that its members want, and how many
/// of these remain, since their members haven't released. In the word the phase is the two highest bits, then come 31 bits of total
/// and 31 of remaining. Nothing remains of a group that gathers, as nothing is reserved yet. The word of a pending group is
/// its phase alone: the leader's swap put it there, and took the total with it.
#[derive(Clone, Copy, Debug, PartialEq, Eq)]
pub struct SlotWord {
    phase: Phase,
    total: u32,
    remaining: u32,
    ghost total_fits: { total < 2 ^ 31 },
    ghost remaining_fits: { remaining < 2 ^ 31 },
    ghost gathering: { phase ≡ Gathering → remaining ≡ 0 },
    ghost pending: { phase ≡ Pending → (total ≡ 0) × (remaining ≡ 0) },
}

impl SlotWord {
    ghost use Rattle.slot_word.specs.SlotWord.{word_of, subtracted};

    /// A group gathers, of which this is the total so far: 0 where nobody has joined.
    pub fn fresh(total: u32) -> SlotWord
        requires { total < 2 ^ 31 }
        ensures phase { result.phase ≡ Gathering }
        ensures total { result.total ≡ total }
        ensures remaining { result.remaining ≡ 0 }
    {
        SlotWord {
            phase: Phase::Gathering,
            total,
            remaining: 0,
        }
    }

    /// The group is closed. Its leader closes it by a swap, so that no join is lost that comes in between.
    pub fn pending() -> SlotWord
        ensures phase { result.phase ≡ Pending }
        ensures total { result.total ≡ 0 }
        ensures remaining { result.remaining ≡ 0 }
    {
        SlotWord {
            phase: Phase::Pending,
            total: 0,
            remaining: 0,
        }
    }

    /// The group has its range, and this much of it isn't released.
    pub fn published(total: u32, remaining: u32) -> SlotWord
        requires total { total < 2 ^ 31 }
        requires remaining { remaining < 2 ^ 31 }
        ensures phase { result.phase ≡ Published }
        ensures total { result.total ≡ total }
        ensures remaining { result.remaining ≡ remaining }
    {
        SlotWord {
            phase: Phase::Published,
            total,
            remaining,
        }
    }

    /// There was no room for the group, as its leader saw it, and the members that want this much haven't released.
    pub fn refused(total: u32, remaining: u32) -> SlotWord
        requires total { total < 2 ^ 31 }
        requires remaining { remaining < 2 ^ 31 }
        ensures phase { result.phase ≡ Refused }
        ensures total { result.total ≡ total }
        ensures remaining { result.remaining ≡ remaining }
    {
        SlotWord {
            phase: Phase::Refused,
            total,
            remaining,
        }
    }

    pub fn phase(self) -> Phase
        ensures phase { result ≡ self.phase }
        ensures gathering { result ≡ Gathering → self.remaining ≡ 0 }
        ensures pending { result ≡ Pending → (self.total ≡ 0) × (self.remaining ≡ 0) }
    {
        self.phase
    }

    pub fn total(self) -> u32
        ensures total { result ≡ self.total }
        ensures fits { result < 2 ^ 31 }
    {
        self.total
    }

    pub fn remaining(self) -> u32
        ensures remaining { result ≡ self.remaining }
        ensures fits { result < 2 ^ 31 }
    {
        self.remaining
    }

    /// What a worker that wants `n` units makes of the word when it joins. Its piece begins where the total stood before.
    pub fn joined(self, n: u32) -> SlotWord
        requires gathering { self.phase ≡ Gathering }
        requires fits { self.total + n < 2 ^ 31 }
        ensures phase { result.phase ≡ self.phase }
        ensures total { result.total ≡ self.total + n }
        ensures remaining { result.remaining ≡ self.remaining }
    {
        SlotWord::fresh(self.total + n)
    }

    /// What is left of the word when a member of `n` units releases. It does so by one subtraction, without a look at the word.
    pub fn less(self, n: u32) -> SlotWord
        requires { n ≤ self.remaining }
        ensures phase { result.phase ≡ self.phase }
        ensures total { result.total ≡ self.total }
        ensures remaining { result.remaining ≡ self.remaining - n }
        ensures release { word_of result ≡ subtracted n (word_of self) }
    {
        SlotWord {
            phase: self.phase,
            total: self.total,
            remaining: self.remaining - n,
        }
    }
}
