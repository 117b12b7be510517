//! Want of memory.
/// An allocation was refused. It is the one answer of a call that no clause ties to a cause.
#[derive(Clone, Copy, Debug, PartialEq, Eq)]
pub struct NoMemory;
