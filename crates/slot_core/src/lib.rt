//! The consolidation array as a pure machine. Its state, its events and its laws stand in `specs/`; `SlotRun` replays one list of
//! events, and `slot_laws` says what holds after every list.
#![tactic(auto)]

mod event;
mod group;
mod hand;
mod laws;
mod run;

pub use event::SlotEvent;
pub use laws::{group_laws, owner_laws, ring_part_law, slot_laws};
pub use run::SlotRun;
pub use slot_parts::{GroupPhase, LONGEST_PIECE, MemberStage, Membership, Outcome, Task};
