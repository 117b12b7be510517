//! A step of what was done to a disk.
/// What was done to a disk in memory. The bytes of the writes are kept joined, in another place.
#[derive(Clone, Copy, Debug, PartialEq, Eq)]
pub(crate) enum Step {
    Write { at: usize, len: usize },
    Sync,
}
