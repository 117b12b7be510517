//! What tests of slots make alike: the steps of a worker that joins a group, one after another.
#![tactic(auto)]

mod hearing;
mod joining;
mod leading;
mod pair;
mod releasing;
mod share;

pub use hearing::{fill_piece, hear, hear_refusal};
pub use joining::{NotJoined, join_for_note, joiner};
pub use leading::{GroupRange, close, lead, lead_without_room};
pub use pair::{Pair, gather_both, pair_of};
pub use releasing::{Left, leave, leave_refused};
pub use share::{Refusal, Share};
