//! Tests of `txn_script`, `command_line` and `run_plan`, and of `job_queue`: passes that take places in turns, by hand, and are given back.
#![tactic(auto)]

#[cfg(test)]
mod generated;
#[cfg(test)]
mod queue;
#[cfg(test)]
mod summaries;
#[cfg(test)]
mod texts;
#[cfg(test)]
mod words;
