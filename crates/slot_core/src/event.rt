//! The atomic actions of the machine.

use ring_core::RingEvent;

/// What happens in one atomic action: one actor's, but for a flush.
#[derive(Clone, Copy, Debug, PartialEq, Eq)]
pub enum SlotEvent {
    /// Actor `by` joins the group at `slot` with `n` units.
    Join { by: u32, slot: u32, n: u32 },
    /// Actor `by`, which leads a group, closes it.
    Close { by: u32 },
    /// Actor `by` reserves a range for its group, or is refused it.
    Place { by: u32 },
    /// Actor `by` stores where the range begins, or by what it was refused.
    PutBase { by: u32 },
    /// Actor `by` tells its group.
    Tell { by: u32 },
    /// Actor `by` hears what became of its group.
    Hear { by: u32 },
    /// Actor `by` releases its piece.
    Release { by: u32 },
    /// Actor `by`, which was the last to release, opens the slot again.
    Reopen { by: u32 },
    /// An event of the ring machine. By a member of a group, a fill is of the next unit of its own piece.
    Ring(RingEvent),
}
