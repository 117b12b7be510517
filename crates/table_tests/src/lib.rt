//! Tests of the calls of `log_table`, `ring_buffer`, `early_locks` and `consol_array` over a table that no daemon flushes: workers one by one,
//! groups that gather at a slot on one thread, and inserts of two threads that meet.
#![tactic(auto)]

#[cfg(test)]
mod bells_tests;
#[cfg(test)]
mod found;
#[cfg(test)]
mod group;
#[cfg(test)]
mod group_inserts_tests;
#[cfg(test)]
mod group_joins_tests;
#[cfg(test)]
mod groups_tests;
#[cfg(test)]
mod half_taken_tests;
#[cfg(test)]
mod inserting_tests;
#[cfg(test)]
mod meeting;
#[cfg(test)]
mod releasing_tests;
#[cfg(test)]
mod sending_tests;
#[cfg(test)]
mod slot_found;
#[cfg(test)]
mod slot_joins_tests;
#[cfg(test)]
mod slot_placed_tests;
#[cfg(test)]
mod slot_refused_tests;
#[cfg(test)]
mod steps_tests;
#[cfg(test)]
mod taking_tests;
