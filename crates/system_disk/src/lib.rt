//! A source, a sink and a disk over the streams and files of the system. They count their faults, and
//! make a call again that was interrupted. A file and the program's streams tell nothing of their bytes.
#![tactic(auto)]

mod file_disk;
mod retrying;
mod sleeps;
mod std_streams;

pub use file_disk::{FileDisk, folder_of};
pub use sleeps::sharpen_sleeps;
pub use std_streams::{StdSink, StdSource};
