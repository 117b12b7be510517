//! The transfers of a script in one queue, from which workers take them, each the next one as soon as it is free; and an end mark for each
//! worker behind them.
#![tactic(auto)]

mod filling;
mod jobs;
mod queue;
mod rows;
mod taking;
mod takings;

pub use jobs::Jobs;
pub use queue::Queue;
pub use rows::Rows;
pub use takings::{OneByOne, Takings};
