//! What the program answers to its words where they need no workers.
#![tactic(auto)]

mod answer;
mod answering;
mod reports;

pub use answer::{Answer, WithWorkers};
pub use answering::answer_alone;
pub use reports::{obey_asof, obey_dump, obey_recover, obey_ship, obey_statement};
