//! What a run is made with: how its transfers are made, and what `demo` generates; and the summary that `demo` prints.
#![tactic(auto)]

mod demo;
mod plan;
mod summary;

pub use demo::{Generated, generate, plan_of_demo};
pub use plan::{Plan, plan_of_run};
pub use summary::{Counts, put_summary};
