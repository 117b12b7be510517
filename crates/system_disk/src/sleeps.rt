//! How exactly the system ends a sleep.
use std::fs::{File, Files, OpenOptions};
use std::io::Write;

/// Where Linux keeps by how much it may end the sleeps of a program later than asked, in nanoseconds: 50000 at first.
const TIMER_SLACK: &str = "/proc/self/timerslack_ns";

/// Asks the system to end the sleeps of this thread, and of those that it makes from here on, within a microsecond. Where there is no such
/// file, or it can't be written, sleeps stay as they are: nothing rests on a time.
pub fn sharpen_sleeps<R: Files<File = File>>(rt: &R) {
    let mut options = OpenOptions::new();
    options.write(true);
    if let Ok(mut file) = options.open(rt, TIMER_SLACK) {
        // By `write`: it takes none at an offset.
        let _ = file.write(b"1000");
    }
}
