//! The log file: batches of units, each behind a gate byte. A batch counts where its gate and all before it are open.
//! `scan` reads what a file's bytes hold by the grammar of `specs/Log.antt`.
#![tactic(auto)]

mod appending;
mod batch;
mod creating;
mod first_gate;
mod front;
mod gate;
mod gated_write;
mod layout;
mod opened_write;
mod opening;
mod scan_result;
mod scanning;
mod settling;
mod taking;
mod units;

pub use appending::append;
pub use batch::Batch;
pub use creating::create;
pub use first_gate::has_open_gate;
pub use front::{Front, take_front};
pub use gate::after_gate;
pub use gated_write::{DiskFault, write_gated, write_synced, write_unsynced};
pub use layout::{MOST_UNITS, OPEN, format_numbers};
pub use opened_write::write_opened;
pub use opening::{OpenFault, open_image};
pub use scan_result::{Scan, ScanFault, Tail};
pub use scanning::{first_format, one_reading, scan};
pub use settling::{close_gate, settle};
pub use taking::{BatchFault, take_batch};
pub use units::LogUnits;
