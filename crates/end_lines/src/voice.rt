//! How a daemon tells of end records.
/// Whether a daemon writes a line for each end record, or only counts them.
#[derive(Clone, Copy, Debug, PartialEq, Eq)]
pub enum Voice {
    Lines,
    Count,
}
