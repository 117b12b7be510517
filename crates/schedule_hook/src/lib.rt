//! The schedule hook: a worker tells it where it stands. It answers nothing and changes nothing, so
//! nothing can depend on it. Tests use it to hold one thread until another has come by.
#![tactic(auto)]

mod hook;

pub use hook::{Gate, OpenGate, Place};
