//! Tests of `lock_core`, `log_recovery`, `source_recovery` and `ledger_view`.
#![tactic(auto)]

#[cfg(test)]
mod answers;
#[cfg(test)]
mod cut;
#[cfg(test)]
mod dumps;
#[cfg(test)]
mod hostile;
#[cfg(test)]
mod images;
#[cfg(test)]
mod judged;
#[cfg(test)]
mod judging;
#[cfg(test)]
mod openings;
#[cfg(test)]
mod pieces;
#[cfg(test)]
mod plainly;
#[cfg(test)]
mod view_adding;
#[cfg(test)]
mod view_plainly;
#[cfg(test)]
mod view_rows;
#[cfg(test)]
mod view_units;
#[cfg(test)]
mod wide_balances;
