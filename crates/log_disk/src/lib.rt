//! The outside of the log manager: what it reads bytes from, what it writes text to, and the disk.
//! Each is a trait that says what a call may do and counts its faults. `memory_disk` has one of each
//! in memory, of which all is known, and `system_disk` one over the system, which tells nothing of
//! its bytes.
#![tactic(auto)]

mod disk;
mod fault;
mod numbers;
mod output_block;
mod sink;
mod source;

pub use disk::LogDisk;
pub use fault::Failed;
pub use numbers::fixed_numbers;
pub use output_block::{BLOCK_BYTES, Block, LinesBlock, OutputBlock};
pub use schedule_hook::{Gate, OpenGate, Place};
pub use sink::{Sink, WriteFault, put_all};
pub use source::{READ_ALLOWANCE, ReadFault, Source};
