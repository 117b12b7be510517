//! Tests of `log_disk`, `memory_disk`, `system_disk`, `segment_file`, `segment_head` and `segment_cut`.
#![tactic(auto)]

#[cfg(test)]
mod disk_crashes;
#[cfg(test)]
mod disks;
#[cfg(test)]
mod files;
#[cfg(test)]
mod first_gate;
#[cfg(test)]
mod heads;
#[cfg(test)]
mod log_crashes;
#[cfg(test)]
mod outcomes;
#[cfg(test)]
mod scanning;
#[cfg(test)]
mod streams;
#[cfg(test)]
mod upgrades;
