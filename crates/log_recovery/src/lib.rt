//! What the bytes of a log say: the lawful list of records that they hold and its accounts, or what is
//! wrong with them.
#![tactic(auto)]

mod boundaries;
mod dump;
mod judging;
mod line;
mod list_result;
mod listing;
mod numbers;
mod places;
mod recovery;
mod texts;

pub use boundaries::{units_behind, units_from};
pub use dump::put_dump;
pub use judging::{UnitsFault, judge_of_units, taken_units};
pub use line::{LINE_BYTES, Line};
pub use list_result::Listed;
pub use listing::{listed, listed_scan};
pub use lock_core::Why;
pub use numbers::fixed_numbers;
pub use places::place_of;
pub use recovery::{
    RecoverFault, Recovered, judged, one_answer, recover, recover_list, recover_owned,
    recovered_of, scan_fault, taken, taken_owned, taken_scan, units_fault,
};
pub use texts::{put_accounts, put_end};
