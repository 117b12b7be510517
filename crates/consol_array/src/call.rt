//! What names the call that a member of a group has under way. Each value is for the seat that got it.
ghost use Rattle.std.specs.Prelude.{◌+◌, ◌≤◌};
ghost use Rattle.lsn_space.specs.declared.lsn.TheConstants.{LAST};

use lsn_space::Lsn;
use ring_buffer::Refused;
use slot_word::SlotWord;

/// The seat has joined the group at the slot, for the `n` units behind the `offset` units of those who joined
/// before it. At offset 0 it leads the group.
#[derive(Drop)]
pub struct Joined {
    pub slot: u32,
    pub offset: u32,
    pub n: u32,
}

/// Why the seat did not join: its slot's state as it loaded it, and as its exchange found it. Where it made no
/// exchange, since the group takes no more, both are the same.
#[derive(Clone, Copy, Debug, PartialEq, Eq)]
pub struct NotJoined {
    pub loaded: SlotWord,
    pub found: SlotWord,
}

/// The seat's piece of its group's range, the `n` units from `at` on, which it has not filled yet.
#[derive(Drop)]
pub struct Member {
    pub slot: u32,
    pub offset: u32,
    pub at: Lsn,
    pub n: u32,
    ghost within: { at + n ≤ LAST },
    ghost behind: { offset ≤ at },
}

/// The seat's piece of its group's range, which it has filled and not yet released.
#[derive(Drop)]
pub struct FilledMember {
    pub slot: u32,
    pub offset: u32,
    pub at: Lsn,
    pub n: u32,
    ghost within: { at + n ≤ LAST },
    ghost behind: { offset ≤ at },
}

/// The seat is a member, with `n` units, of a group that was refused, and has not released these.
#[derive(Drop)]
pub struct Leaver {
    pub slot: u32,
    pub n: u32,
}

/// What a member hears of its group.
#[derive(Drop)]
pub enum Heard {
    /// The group has its range, and in it the member its piece.
    Base(Member),
    /// There was no room for the group.
    Refused(Refused, Leaver),
}

/// A record was inserted at this LSN, and whether its member was the last of its group to release.
#[derive(Clone, Copy, Debug, PartialEq, Eq)]
pub struct Released {
    pub at: Lsn,
    pub last: bool,
}
