//! A source, a sink and a disk in memory, of which all is known. They fail at the calls whose numbers
//! they are given, and the disk leaves what a crash may.
#![tactic(auto)]

mod contents;
mod crash;
mod memory_disk;
mod memory_sink;
mod memory_source;
mod numbers;
mod step;

pub use memory_disk::{LONGEST_NAME, MemoryDisk, RECORD};
pub use memory_sink::MemorySink;
pub use memory_source::MemorySource;
pub use numbers::fixed_numbers;
