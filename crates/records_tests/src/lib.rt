//! Tests of `lsn_space`, `idle_backoff`, `slot_word`, `ring_core`, `log_record` and `slot_core`.
#![tactic(auto)]

#[cfg(test)]
mod account_words;
#[cfg(test)]
mod group_rig;
#[cfg(test)]
mod groups;
#[cfg(test)]
mod idle_times;
#[cfg(test)]
mod records;
#[cfg(test)]
mod refused_groups;
#[cfg(test)]
mod ring;
#[cfg(test)]
mod slot_words;
#[cfg(test)]
mod small_types;
