//! Takes what is exposed from the ring, writes it to the log file as one batch, and only then says that it is durable.
#![tactic(auto)]

mod draining;
mod flusher;
mod flushing;

pub use flusher::{Drained, Flushed, Flusher, FlusherParts};
