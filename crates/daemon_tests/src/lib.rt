//! Tests of `flusher` and `commit_pipeline`: what workers insert while a daemon sends it to a disk; of a run of sixteen workers over a table
//! with one slot; and of `cli_workers`: a worker that flushes while it waits.
#![tactic(auto)]

#[cfg(test)]
mod daemon_tests;
#[cfg(test)]
mod flushing_tests;
#[cfg(test)]
mod group_records;
#[cfg(test)]
mod group_run_tests;
#[cfg(test)]
mod group_script;
#[cfg(test)]
mod pipeline_tests;
#[cfg(test)]
mod relief_tests;
