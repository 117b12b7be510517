//! Inserts of one worker alone: it looks at the tail and at durable, reserves a range by one exchange
//! of the tail, copies its units into the ring, marks the range as released, and raises exposed past all
//! released ranges that it has come to. It waits for nobody.
#![tactic(auto)]

mod call;
mod filling;
mod inserting;
mod placing;
mod refused;
mod releasing;

pub use call::{Filled, Look, Range};
pub use filling::fill;
pub use inserting::insert_alone;
pub use placing::{end_of, look, place_alone, try_place};
pub use refused::Refused;
pub use releasing::{expose, finish};
