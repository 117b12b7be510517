//! Tests of `ship`, `follow`, `asof` and `statement`, by their calls and by the top call, over a disk, a source and a sink in memory.
#![tactic(auto)]

#[cfg(test)]
mod calls;
#[cfg(test)]
mod follow_tests;
#[cfg(test)]
mod logs;
#[cfg(test)]
mod long_tests;
#[cfg(test)]
mod ship_tests;
#[cfg(test)]
mod view_command_tests;
#[cfg(test)]
mod view_logs;
#[cfg(test)]
mod view_tests;
#[cfg(test)]
mod wide_tests;
