//! The atomic actions of the machine.

use lsn_space::Lsn;

/// What happens to the ring in one atomic action: one actor's, but for `Flushed`.
#[derive(Clone, Copy, Debug, PartialEq, Eq)]
pub enum RingEvent {
    /// Actor `by` reserves the next `n` units.
    Reserve { by: u32, n: u32 },
    /// Actor `by` fills the next unit of its reservation.
    Fill { by: u32 },
    /// Actor `by` marks its reservation, which is full, as released.
    Mark { by: u32 },
    /// Actor `by`, which has just made a mark, looks at exposed.
    LookExposed { by: u32 },
    /// Actor `by` looks at the mark where the exposed is that it found or wrote last.
    LookMark { by: u32 },
    /// Actor `by`, which found a mark there, raises exposed past it, or finds that exposed has moved.
    Raise { by: u32 },
    /// Everything below `to` has become durable.
    Flushed { to: Lsn },
}
