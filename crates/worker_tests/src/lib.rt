//! Tests of `txn_runner`: workers over a table that no daemon flushes, and the accounts that they give back.
#![tactic(auto)]

#[cfg(test)]
mod accounts_tests;
#[cfg(test)]
mod alone;
#[cfg(test)]
mod closing_tests;
#[cfg(test)]
mod front_tests;
#[cfg(test)]
mod giving_tests;
#[cfg(test)]
mod waking_tests;
#[cfg(test)]
mod wide_tests;
#[cfg(test)]
mod worker_tests;
