//! A standby: a log that follows the stream of another. Each frame of the stream is appended as one batch, once it is whole and each
//! of its records was judged lawful.
#![tactic(auto)]

mod applying;
mod ending;
mod fault;
mod feeding;
mod judging;
mod laws;
mod standby;

pub use fault::StandbyFault;
pub use laws::never_ahead;
pub use standby::{Fed, Standby, Unmade};
