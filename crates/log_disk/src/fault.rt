//! The fault of a call of the outside.
/// A call of the outside failed, and its object has counted the fault.
#[derive(Clone, Copy, Debug, PartialEq, Eq)]
pub struct Failed;
