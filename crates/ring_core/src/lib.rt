//! The log buffer's ring as a pure machine. Its state, what its events do and its laws stand in `specs/`;
//! `RingLog` is the half of it that belongs to bases, `RingRun` replays one list of events, and
//! `ring_laws` says what holds after every list.
#![tactic(auto)]

mod event;
mod hand;
mod laws;
mod range;
mod ring_log;
mod run;
mod stage;

pub use event::RingEvent;
pub use hand::{base_in, is_idle, is_marked, looks_at, raises_from, stage_after_look};
pub use laws::ring_laws;
pub use ring_log::RingLog;
pub use run::RingRun;
pub use stage::Stage;
