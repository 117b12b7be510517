//! The parts of a group of actors that share a reservation of the log: what an actor has in hand, how far a group is, and what each
//! becomes at an event. Which events may happen is for the machine to say that stands on it.
#![tactic(auto)]

mod phase;
mod task;

pub use phase::{GroupPhase, Outcome};
pub use task::{LONGEST_PIECE, MemberStage, Membership, Task, piece_numbers};
