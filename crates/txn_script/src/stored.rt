//! How a script keeps its transfers.
use lock_core::Leg;

/// A transfer as a script keeps it. Nearly all have one leg and no note, and take a few bytes so.
#[derive(Clone, Copy, Debug)]
pub(crate) enum Stored {
    /// One leg, and no note.
    Single(Leg),
    /// Any other, which stands at this place among the long ones.
    Long(usize),
}
