//! What an actor has in hand between two of its atomic actions.

use lsn_space::Lsn;

/// What an actor has in hand.
#[derive(Clone, Copy)]
pub enum Stage {
    Idle,
    /// It works on the reservation at this base.
    Works { base: Lsn },
    /// It has just made a mark, and not looked at exposed since.
    Marked,
    /// It found or wrote this exposed, and has not looked at the mark there.
    Holds { at: Lsn },
    /// It found the reservation there marked, and is about to raise exposed from there.
    Raises { at: Lsn },
}
