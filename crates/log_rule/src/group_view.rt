//! What a seat knows of the group that it has joined. These types stand in contracts alone, as those of
//! `view`.
use log_record::Rec;
use slot_parts::Outcome;
use std::collections::LinkedList;

/// A seat's part in a group: `size` units of the group's total, from `offset` on, for a record; and tail
/// and durable as the seat had seen them when it joined.
pub struct Piece {
    pub offset: u64,
    pub size: u64,
    pub rec: Rec,
    pub tail: u64,
    pub durable: u64,
}

/// What a member of a group does next.
pub enum MemberStep {
    /// It joined first, so it leads the group, and closes it.
    Closes,
    /// It waits until the group is told.
    Waits,
    /// It saw that the group is told, refused or not, and of this total, and hears the rest.
    Hears { refused: bool, total: u64 },
    /// It has closed the group at this one of its steps, and places it, of this total.
    Places { total: u64, closed: u64 },
    /// It has reserved the group's range, which begins there, and stores that base.
    Stores { total: u64, base: u64 },
    /// It has stored what became of the group, and tells it.
    Tells { total: u64, outcome: Outcome },
    /// It has heard where the group's range begins, and fills its piece, of which these units are filled.
    Fills { base: u64, units: LinkedList<u64> },
    /// It has heard by which tail and which durable the group was refused, and releases.
    Leaves { tail: u64, durable: u64 },
}

/// What a seat does once it has nothing more to expose.
pub enum After {
    /// Nothing: its call is over.
    Nothing,
    /// It opens the slot again, whose group's range it marked.
    Reopens(u64),
}

/// A group's refusal that a seat heard: the units of its own piece, and the group's total.
pub struct HeardRefusal {
    pub size: u64,
    pub total: u64,
}
