//! Tests of `ship_stream`, `stream_reader` and `standby`.
#![tactic(auto)]

#[cfg(test)]
mod following;
#[cfg(test)]
mod pieces;
#[cfg(test)]
mod plain;
#[cfg(test)]
mod standby_crashes;
#[cfg(test)]
mod standby_rig;
#[cfg(test)]
mod vectors;
