//! Tests of the top call with one worker and with many, over a disk, a source and a sink in memory.
#![tactic(auto)]

#[cfg(test)]
mod crowd_fault_tests;
#[cfg(test)]
mod crowd_tests;
#[cfg(test)]
mod cut_tests;
#[cfg(test)]
mod demo_tests;
#[cfg(test)]
mod dump_tests;
#[cfg(test)]
mod ends;
#[cfg(test)]
mod gates;
#[cfg(test)]
mod overlap_tests;
#[cfg(test)]
mod recover_tests;
#[cfg(test)]
mod replay_tests;
#[cfg(test)]
mod run_tests;
#[cfg(test)]
mod scripts;
