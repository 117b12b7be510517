//! Groups of workers that want room in the log at the same time. Who lost an exchange of the tail tries to join the
//! group at its slot; one exchange then reserves for all members, each copies its own record into its piece,
//! and the last one to release marks the whole range, exposes what is ready, and opens the slot again.
#![tactic(auto)]

mod call;
mod filling;
mod hearing;
mod inserting;
mod joining;
mod leading;
mod refusing;
mod releasing;

pub use call::{FilledMember, Heard, Joined, Leaver, Member, NotJoined, Released};
pub use filling::fill_member;
pub use hearing::{hear, look_told};
pub use inserting::insert;
pub use joining::try_join;
pub use leading::lead;
pub use releasing::{leave_group, release};
