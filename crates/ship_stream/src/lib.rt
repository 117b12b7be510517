//! The stream in which a log is shipped to another: its grammar, and its writer.
//! `put_stream` writes what `specs/Frames.antt` says; `specs/Stream.antt` is the grammar.
#![tactic(auto)]

mod laws;
mod layout;
mod shipping;

pub use laws::{one_stream, shipped_stream};
pub use layout::{COUNT_BYTES, HEAD_BYTES, MOST_FRAME_UNITS, SHIPPED_UNITS, format_numbers};
pub use shipping::put_stream;
