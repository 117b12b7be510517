//! Tests of the top call where calls of the disk, the output and the input fail, and at the ends of ranges.
#![tactic(auto)]

#[cfg(test)]
mod call_tests;
#[cfg(test)]
mod failed;
#[cfg(test)]
mod follow_tests;
#[cfg(test)]
mod images;
#[cfg(test)]
mod range_tests;
